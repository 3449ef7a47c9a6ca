//! What a command did, as its text, or why it stopped, with the program's status.

use crate::file::File;
use pdh_clock::ScheduleFault;
use pdh_script::ScriptFault;
use pdh_shape::{Path, Place};
use pdh_text::Text;
use std::alloc::AllocError;
use std::marker::Model;

/// The text that shows a frame.
#[derive(Drop)]
pub struct FrameText {
    bytes: Vec<u8>,
}

impl Model for FrameText {
    ghost use Rattle.std.specs.Prelude.{List, ℕ};

    ghost Value = { List ℕ };

    ghost view = { λ t. t.bytes.items };
}

impl FrameText {
    ghost use Rattle.std.specs.Prelude.{◌≡◌};

    /// Of these bytes.
    pub fn new(bytes: Vec<u8>) -> FrameText
        ensures { result ≡ bytes.items }
    {
        FrameText { bytes }
    }

    /// Its bytes.
    pub fn bytes(&self) -> &[u8]
        ensures { result.now ≡ self.now }
    {
        &self.bytes
    }
}

/// What a command did, as its text.
#[derive(Drop)]
pub enum Done {
    /// A line.
    Line(Text),
    /// A line behind those of the monitors.
    Watched(Text),
    /// The text of a frame.
    Frame(FrameText),
}

/// Why a command ended early. Lines of a text are counted from 1.
#[derive(Clone, Copy, Debug, PartialEq, Eq)]
pub enum Stop {
    /// Memory was wanting.
    Memory,
    /// The words are no row of the table of commands.
    Usage,
    /// A call for this file failed to read.
    Read(File),
    /// A call for this file failed to write.
    Write(File),
    /// This input isn't held.
    Missing(File),
    /// The schedule's text is longer than 33,554,432 bytes.
    LongSchedule,
    /// The line of that number is no row of a schedule.
    BadRow(u32),
    /// The row in the line of that number is of a node that the chain doesn't have.
    UnknownNode(u32),
    /// A row's count is above the slots of a frame: the line, the count, and the slots.
    CountOver(u32, u64, u32),
    /// The schedule has fewer frames of a node than the node begins: how many it has, and how many it must have.
    ShortNode(Path, u64, u64),
    /// A file has fewer bits than the command needs: how many it has, and how many it must have.
    Short(File, u64, u64),
    /// A bit arrived at a full elastic store.
    Overflow(Place),
    /// A slot carried a bit of an empty elastic store.
    Underflow(Place),
    /// There are more frames than a line, a schedule or a drill may have.
    ManyFrames(u64),
    /// No frame, or in `e1unpack` and `ds1unpack` no multiframe or superframe, of the line was delivered: its bits.
    NoAlignment(u64),
    /// The payload doesn't fill whole multiframes, or 24 frames once or more times: its octets.
    NotWhole(u64),
    /// The script's text is longer than 1,048,576 bytes.
    LongScript,
    /// The line of that number is no row of a script, or begins before the row before it ends.
    BadScriptRow(u32),
    /// The row in the line of that number ends behind the last bit that is disturbed.
    PastEnd(u32),
    /// The line of a slip couldn't be written.
    Unheard,
}

impl Stop {
    ghost use Rattle.std.specs.Prelude.{◌≡◌};
    ghost use Rattle.pdh_answers.specs.Answer.{status_of};

    /// The program's status.
    pub fn status(self) -> u8
        ensures { result ≡ status_of self }
    {
        match self {
            Stop::Memory => 1,
            Stop::Usage => 2,
            Stop::Read(_) => 3,
            Stop::Write(_) => 4,
            Stop::Missing(_) => 5,
            Stop::LongSchedule => 6,
            Stop::BadRow(_) => 6,
            Stop::UnknownNode(_) => 6,
            Stop::CountOver(_, _, _) => 6,
            Stop::ShortNode(_, _, _) => 7,
            Stop::Short(_, _, _) => 7,
            Stop::Overflow(_) => 8,
            Stop::Underflow(_) => 8,
            Stop::LongScript => 9,
            Stop::BadScriptRow(_) => 9,
            Stop::PastEnd(_) => 9,
            Stop::ManyFrames(_) => 10,
            Stop::NoAlignment(_) => 11,
            Stop::NotWhole(_) => 12,
            Stop::Unheard => 4,
        }
    }
}

impl From<AllocError> for Stop {
    ghost use Rattle.std.specs.Prelude.{◌≡◌};
    ghost use Rattle.pdh_answers.specs.declared.answer.Stop.TheVariants.{Memory};

    ghost from_gives = { λ _ e. e ≡ Memory };

    fn from(_: AllocError) -> Self {
        Stop::Memory
    }
}

impl From<ScheduleFault> for Stop {
    ghost use Rattle.std.specs.Prelude.{◌≡◌};
    ghost use Rattle.pdh_answers.specs.Answer.{stop_of_fault};

    ghost from_gives = { λ fault e. e ≡ stop_of_fault fault };

    fn from(fault: ScheduleFault) -> Self {
        match fault {
            ScheduleFault::TooLong { .. } => Stop::LongSchedule,
            ScheduleFault::BadRow { line } => Stop::BadRow(line),
            ScheduleFault::UnknownNode { line } => Stop::UnknownNode(line),
            ScheduleFault::CountOver { line, count, most } => Stop::CountOver(line, count, most),
            ScheduleFault::Memory => Stop::Memory,
        }
    }
}

impl From<ScriptFault> for Stop {
    ghost use Rattle.std.specs.Prelude.{◌≡◌};
    ghost use Rattle.pdh_answers.specs.Answer.{stop_of_script};

    ghost from_gives = { λ fault e. e ≡ stop_of_script fault };

    fn from(fault: ScriptFault) -> Self {
        match fault {
            ScriptFault::TooLong { .. } => Stop::LongScript,
            ScriptFault::BadRow { line } => Stop::BadScriptRow(line),
            ScriptFault::PastEnd { line } => Stop::PastEnd(line),
            ScriptFault::Memory => Stop::Memory,
        }
    }
}
