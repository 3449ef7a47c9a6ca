//! Why a schedule can't be read.

ghost use Rattle.std.specs.Prelude.{◌≡◌};
ghost use Rattle.pdh_clock.specs.declared.fault.ScheduleFault.TheVariants as faults;

use std::alloc::AllocError;
use thiserror::Error;

/// Why a text is no schedule: its first fault. Lines are numbered from 1.
#[derive(Clone, Copy, Debug, PartialEq, Eq, Error)]
pub enum ScheduleFault {
    /// The text has more bytes than a schedule may have.
    #[error("too long")]
    TooLong {
        /// The bytes of the text.
        len: u64,
    },
    /// The line has not the form of a row, or its row has not one count for each store of its node.
    #[error("line {line}: bad row")]
    BadRow {
        /// The number of the line.
        line: u32,
    },
    /// The row is of a node that the chain doesn't have.
    #[error("line {line}: unknown node")]
    UnknownNode {
        /// The number of the line.
        line: u32,
    },
    /// More bits would arrive in a frame than the frame has.
    #[error("line {line}: count {count} over {most}")]
    CountOver {
        /// The number of the line.
        line: u32,
        /// The row's first count that is too large, in bits.
        count: u64,
        /// The largest count that a frame of this node may have, in bits.
        most: u32,
    },
    /// Memory ran out.
    #[error("memory")]
    Memory,
}

impl From<AllocError> for ScheduleFault {
    ghost from_gives = { λ _ fault. fault ≡ faults.Memory };

    fn from(_: AllocError) -> ScheduleFault {
        ScheduleFault::Memory
    }
}
