//! Why a payload isn't packed, and why a line isn't unpacked.

ghost use Rattle.std.specs.Prelude.{◌≡◌};
ghost use Rattle.pdh_e1.specs.declared.fault.PackFault.TheVariants as pack_faults;
ghost use Rattle.pdh_e1.specs.declared.fault.UnpackFault.TheVariants as unpack_faults;

use std::alloc::AllocError;
use thiserror::Error;

/// Why a payload isn't packed.
#[derive(Clone, Copy, Debug, PartialEq, Eq, Error)]
pub enum PackFault {
    /// The payload doesn't fill whole multiframes, of 496 octets each.
    #[error("not a whole multiframe: {len} octets")]
    NotWhole {
        /// The octets of the payload.
        len: u64,
    },
    /// Memory ran out.
    #[error("memory")]
    Memory,
}

impl From<AllocError> for PackFault {
    ghost from_gives = { λ _ fault. fault ≡ pack_faults.Memory };

    fn from(_: AllocError) -> PackFault {
        PackFault::Memory
    }
}

/// Why a line isn't unpacked.
#[derive(Clone, Copy, Debug, PartialEq, Eq, Error)]
pub enum UnpackFault {
    /// The line isn't whole multiframes, of 512 octets each.
    #[error("not a whole multiframe: {len} octets")]
    NotWhole {
        /// The octets of the line.
        len: u64,
    },
    /// A fixed bit or a C bit is wrong.
    #[error("frame {frame}: wrong")]
    Wrong {
        /// The first frame in which one is, counted from 0.
        frame: u64,
    },
    /// Memory ran out.
    #[error("memory")]
    Memory,
}

impl From<AllocError> for UnpackFault {
    ghost from_gives = { λ _ fault. fault ≡ unpack_faults.Memory };

    fn from(_: AllocError) -> UnpackFault {
        UnpackFault::Memory
    }
}
