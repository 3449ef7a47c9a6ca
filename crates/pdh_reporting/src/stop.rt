//! Why a run tells nothing.

ghost use Rattle.std.specs.Prelude.{◌≤◌};

use pdh_following::FollowFault;
use pdh_outputs::OutputFault;
use pdh_recording::Fault;
use pdh_report_words::Named;
use std::alloc::AllocError;

/// Why a run tells nothing of the recording.
#[derive(Clone, Copy, Debug, PartialEq, Eq)]
pub(crate) enum Stop<'a> {
    /// The recording couldn't be read.
    Recording(Fault),
    /// The file of this name couldn't be written.
    Output(&'a str),
    /// Two files that the words name are one.
    OneFile(Named, Named),
    /// The text couldn't be printed.
    Unprinted,
    /// Memory was wanting.
    OutOfMemory,
}

impl<'a> From<AllocError> for Stop<'a> {
    fn from(_error: AllocError) -> Stop<'a> {
        Stop::OutOfMemory
    }
}

impl<'a> From<Fault> for Stop<'a> {
    fn from(fault: Fault) -> Stop<'a> {
        match fault {
            Fault::OutOfMemory => Stop::OutOfMemory,
            _ => Stop::Recording(fault),
        }
    }
}

impl<'a> From<OutputFault<'a>> for Stop<'a> {
    fn from(fault: OutputFault<'a>) -> Stop<'a> {
        match fault {
            OutputFault::Unwritten(name) => Stop::Output(name),
            OutputFault::OneFile(one, other) => Stop::OneFile(one, other),
            OutputFault::OutOfMemory => Stop::OutOfMemory,
        }
    }
}

impl<'a> Stop<'a> {
    /// Why a line wasn't followed to its end, the rows of whose events stand under a name, if they are wanted.
    pub(crate) fn of_following(fault: FollowFault, events: Option<&'a str>) -> Stop<'a> {
        match fault {
            FollowFault::Recording(fault) => fault.into(),
            FollowFault::Unwritten => Stop::Output(events.unwrap_or("")),
            FollowFault::OutOfMemory => Stop::OutOfMemory,
        }
    }

    /// The status with which the run ends: 2 where the words are wrong, else 3.
    pub(crate) fn status(&self) -> u8
        ensures { result ≤ 3 }
    {
        match self {
            Stop::OneFile(_, _) => 2,
            _ => 3,
        }
    }

    /// Prints the line that tells it of a recording to the standard error.
    pub(crate) fn print(&self, rt: &impl Eprint, file: &str) {
        let _ = match self {
            Stop::Recording(Fault::NotThere) => eprintln!(rt; "pdhreport: {file}: not there"),
            Stop::Recording(Fault::Unreadable { byte }) => {
                eprintln!(rt; "pdhreport: {file}: can't be read at byte {byte}")
            }
            Stop::Recording(Fault::NoBits { bit }) => {
                eprintln!(rt; "pdhreport: {file}: no bits from bit {bit} on")
            }
            Stop::Recording(Fault::Shorter) => {
                eprintln!(rt; "pdhreport: {file}: became shorter while it was read")
            }
            Stop::Output(name) => eprintln!(rt; "pdhreport: {name}: can't be written"),
            Stop::OneFile(one, other) => {
                let one = one.word();
                let other = other.word();
                eprintln!(rt; "pdhreport: {one} and {other} name one file")
            }
            Stop::Unprinted => eprintln!(rt; "pdhreport: standard output: can't be written"),
            Stop::Recording(Fault::OutOfMemory) | Stop::OutOfMemory => {
                eprintln!(rt; "pdhreport: out of memory")
            }
        };
    }
}
