//! Why there is no text of a frame.

use std::alloc::AllocError;

/// Why a frame isn't shown.
#[derive(Clone, Copy, Debug, PartialEq, Eq)]
pub enum ShowStop {
    /// Memory was wanting; then nothing was taken.
    Memory,
    /// The feed failed.
    Failed,
}

impl From<AllocError> for ShowStop {
    ghost use Rattle.std.specs.Prelude.{◌≡◌};
    ghost use Rattle.pdh_show.specs.declared.stop.ShowStop.TheVariants.{Memory};

    ghost from_gives = { λ _ stop. stop ≡ Memory };

    fn from(_: AllocError) -> ShowStop {
        ShowStop::Memory
    }
}
