//! Why a text is no list of cases.

ghost use Rattle.std.specs.Prelude.{◌≡◌};
ghost use Rattle.pdh_case_language.specs.declared.fault.Fault.TheVariants.{Memory};

use std::alloc::{AllocError, AllocFailed};
use std::error::Error;
use std::fmt;

/// What is wrong in a line.
#[derive(Clone, Copy, Debug)]
pub enum Fault {
    /// The line begins with no word of the language.
    UnknownWord,
    /// The line has too few or too many words, or one that can't stand there.
    BadWords,
    /// A word that is to be a number is none, or too large.
    BadNumber,
    /// A word is no item of bytes, or no digest.
    BadBytes,
    /// A group ends that hasn't begun, or doesn't end.
    BadGroup,
    /// A range of names doesn't rise from one number of two digits to another.
    BadNames,
    /// The line stands before the first case.
    NoCase,
    /// An expectation stands before the first run of its case.
    NoRun,
    /// A line of text follows a line that takes none.
    NoText,
    /// A case ends without a run, or with something given to none.
    NotWhole,
    /// A run has no status, or two.
    NoStatus,
    /// Memory ran out.
    Memory,
}

impl Fault {
    // What is wrong, in words.
    fn text(self) -> &'static str {
        match self {
            Fault::UnknownWord => "unknown word",
            Fault::BadWords => "the words don't fit",
            Fault::BadNumber => "bad number",
            Fault::BadBytes => "bad bytes",
            Fault::BadGroup => "a group isn't whole",
            Fault::BadNames => "bad names",
            Fault::NoCase => "no case yet",
            Fault::NoRun => "no run yet",
            Fault::NoText => "no file of text",
            Fault::NotWhole => "the case isn't whole",
            Fault::NoStatus => "not one status",
            Fault::Memory => "memory",
        }
    }
}

impl From<AllocError> for Fault {
    ghost from_gives = { λ _ e. e ≡ Memory };

    fn from(_: AllocError) -> Fault {
        Fault::Memory
    }
}

impl<T: Drop> From<AllocFailed<T>> for Fault {
    ghost from_gives = { λ _ e. e ≡ Memory };

    fn from(_failed: AllocFailed<T>) -> Fault {
        Fault::Memory
    }
}

/// The first fault of a text, and the line in which it is found, from 1.
#[derive(Clone, Copy, Debug)]
pub struct CaseFault {
    /// The number of the line.
    pub line: usize,
    /// What is wrong.
    pub fault: Fault,
}

impl fmt::Display for CaseFault {
    fn fmt<W: fmt::Write>(&self, f: &mut fmt::Formatter<W>) -> fmt::Result {
        write!(f, "line {}: {}", self.line, self.fault.text())
    }
}

impl Error for CaseFault {}
