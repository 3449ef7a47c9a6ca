//! Why `mux` and `demux` end early.

use pdh_edge::{Failed, FeedStop};
use pdh_shape::{Path, Place};
use std::alloc::AllocError;

/// Why `mux` or `mux_slips` stops before the end of its line. An event ends a line of `mux` alone, and a log is told by `mux_slips`
/// alone.
#[derive(Clone, Copy, Debug, PartialEq, Eq)]
pub enum MuxStop {
    /// Memory was wanting, before the port was started.
    Memory,
    /// A store overflows or underflows.
    Event {
        /// Whether it overflows.
        over: bool,
        /// Where.
        place: Place,
    },
    /// The schedule has no more frames of a node.
    NoFrame {
        /// The node.
        node: Path,
    },
    /// A leaf's list is used up.
    Ended {
        /// The leaf, counted from 0.
        leaf: u32,
    },
    /// A call that takes bits of the port failed.
    ReadFailed,
    /// A call that puts bits to the port failed.
    WriteFailed,
    /// The log couldn't be told of a slip.
    LogFailed,
}

impl From<AllocError> for MuxStop {
    ghost use Rattle.std.specs.Prelude.{◌≡◌};
    ghost use Rattle.pdh_chain.specs.declared.stop.MuxStop.TheVariants.{Memory};

    ghost from_gives = { λ _ stop. stop ≡ Memory };

    fn from(_: AllocError) -> MuxStop {
        MuxStop::Memory
    }
}

/// Why `demux` stops before the end of its line.
#[derive(Clone, Copy, Debug, PartialEq, Eq)]
pub enum DemuxStop {
    /// Memory was wanting, before the port was started.
    Memory,
    /// The line has fewer bits than were asked for.
    Ended,
    /// A call that takes bits of the port failed.
    ReadFailed,
    /// A call that puts bits to the port failed.
    WriteFailed,
}

impl From<AllocError> for DemuxStop {
    ghost use Rattle.std.specs.Prelude.{◌≡◌};
    ghost use Rattle.pdh_chain.specs.declared.stop.DemuxStop.TheVariants.{Memory};

    ghost from_gives = { λ _ stop. stop ≡ Memory };

    fn from(_: AllocError) -> DemuxStop {
        DemuxStop::Memory
    }
}

impl From<FeedStop> for DemuxStop {
    ghost use Rattle.std.specs.Prelude.{◌≡◌};
    ghost use Rattle.pdh_chain.specs.Demuxing.{feed_stop};

    ghost from_gives = { λ why stop. stop ≡ feed_stop why };

    fn from(why: FeedStop) -> DemuxStop {
        match why {
            FeedStop::Failed => DemuxStop::ReadFailed,
            FeedStop::Ended => DemuxStop::Ended,
        }
    }
}

impl From<Failed> for DemuxStop {
    ghost use Rattle.std.specs.Prelude.{◌≡◌};
    ghost use Rattle.pdh_chain.specs.declared.stop.DemuxStop.TheVariants.{WriteFailed};

    ghost from_gives = { λ _ stop. stop ≡ WriteFailed };

    fn from(_: Failed) -> DemuxStop {
        DemuxStop::WriteFailed
    }
}
