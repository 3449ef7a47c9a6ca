//! Why a line isn't disturbed to its end.

use pdh_edge::{Failed, FeedStop};

/// Why `apply` stops before the end of its line.
#[derive(Clone, Copy, Debug, PartialEq, Eq)]
pub enum ApplyStop {
    /// The line has fewer bits than were asked for.
    Ended,
    /// A call that takes bits of the port failed.
    ReadFailed,
    /// A call that puts bits to the port failed.
    WriteFailed,
}

impl From<FeedStop> for ApplyStop {
    ghost use Rattle.std.specs.Prelude.{◌≡◌};
    ghost use Rattle.pdh_script.specs.Applying.{feed_stop};

    ghost from_gives = { λ why stop. stop ≡ feed_stop why };

    fn from(why: FeedStop) -> ApplyStop {
        match why {
            FeedStop::Failed => ApplyStop::ReadFailed,
            FeedStop::Ended => ApplyStop::Ended,
        }
    }
}

impl From<Failed> for ApplyStop {
    ghost use Rattle.std.specs.Prelude.{◌≡◌};
    ghost use Rattle.pdh_script.specs.declared.stop.ApplyStop.TheVariants.{WriteFailed};

    ghost from_gives = { λ _ stop. stop ≡ WriteFailed };

    fn from(_: Failed) -> ApplyStop {
        ApplyStop::WriteFailed
    }
}
