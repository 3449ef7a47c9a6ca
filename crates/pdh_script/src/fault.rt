//! Why a script can't be read.

ghost use Rattle.std.specs.Prelude.{◌≡◌};
ghost use Rattle.pdh_script.specs.declared.fault.ScriptFault.TheVariants as faults;

use std::alloc::AllocError;
use thiserror::Error;

/// Why a text is no script for a line: its first fault. Lines of the text are numbered from 1.
#[derive(Clone, Copy, Debug, PartialEq, Eq, Error)]
pub enum ScriptFault {
    /// The text has more bytes than a script may have.
    #[error("too long")]
    TooLong {
        /// The bytes of the text.
        len: u64,
    },
    /// The line has not the form of a row, or its row begins before the end of the row before it.
    #[error("line {line}: bad row")]
    BadRow {
        /// The number of the line.
        line: u32,
    },
    /// The row ends behind the end of the line that is to be disturbed.
    #[error("line {line}: past the end")]
    PastEnd {
        /// The number of the line.
        line: u32,
    },
    /// Memory ran out.
    #[error("memory")]
    Memory,
}

impl From<AllocError> for ScriptFault {
    ghost from_gives = { λ _ fault. fault ≡ faults.Memory };

    fn from(_: AllocError) -> ScriptFault {
        ScriptFault::Memory
    }
}
