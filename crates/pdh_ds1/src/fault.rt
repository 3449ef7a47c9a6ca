//! Why a payload isn't packed, and why a line isn't unpacked.

ghost use Rattle.std.specs.Prelude.{◌≡◌};
ghost use Rattle.pdh_ds1.specs.declared.fault.Ds1PackFault.TheVariants as pack_faults;
ghost use Rattle.pdh_ds1.specs.declared.fault.Ds1UnpackFault.TheVariants as unpack_faults;

use std::alloc::AllocError;
use thiserror::Error;

/// Why a payload isn't packed.
#[derive(Clone, Copy, Debug, PartialEq, Eq, Error)]
pub enum Ds1PackFault {
    /// The payload doesn't fill whole superframes, of 576 octets for 24 frames.
    #[error("not a whole multiframe: {len} octets")]
    NotWhole {
        /// The octets of the payload.
        len: u64,
    },
    /// Memory ran out.
    #[error("memory")]
    Memory,
}

impl From<AllocError> for Ds1PackFault {
    ghost from_gives = { λ _ fault. fault ≡ pack_faults.Memory };

    fn from(_: AllocError) -> Ds1PackFault {
        Ds1PackFault::Memory
    }
}

/// Why a line isn't unpacked.
#[derive(Clone, Copy, Debug, PartialEq, Eq, Error)]
pub enum Ds1UnpackFault {
    /// The line isn't whole superframes, of 579 octets for 24 frames.
    #[error("not a whole multiframe: {len} octets")]
    NotWhole {
        /// The octets of the line.
        len: u64,
    },
    /// A framing or a CRC bit is wrong.
    #[error("frame {frame}: wrong")]
    Wrong {
        /// The first frame in which one is, counted from 0.
        frame: u64,
    },
    /// Memory ran out.
    #[error("memory")]
    Memory,
}

impl From<AllocError> for Ds1UnpackFault {
    ghost from_gives = { λ _ fault. fault ≡ unpack_faults.Memory };

    fn from(_: AllocError) -> Ds1UnpackFault {
        Ds1UnpackFault::Memory
    }
}
