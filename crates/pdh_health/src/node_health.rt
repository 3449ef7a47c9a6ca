//! What was found of the nodes of a line, as plain values.

use crate::codes::FirstCodes;
use pdh_cells::{CELLS, Cell};
use pdh_event_counts::Counts;
use pdh_placed::Placed;
use pdh_seconds::Tally;
use pdh_shape::Path;
use pdh_spans::SpanSum;

/// What a node's receiver counted.
#[derive(Clone, Copy, Debug, PartialEq, Eq)]
pub struct NodeNumbers {
    /// Where the node stands.
    pub path: Path,
    /// The bits of its line.
    pub bits: u64,
    /// The frames that were delivered.
    pub frames: u64,
    /// The judged frames.
    pub judged: u64,
    /// The right ones among these.
    pub right: u64,
}

/// What was found of the course of a node. Times are in bits of the recording.
#[derive(Clone, Copy)]
pub struct CourseHealth {
    /// How often and how long it was out of alignment.
    pub out: SpanSum,
    /// How often and how long it was in AIS.
    pub ais: SpanSum,
    /// How often and how long the far end told a remote alarm.
    pub alarm: SpanSum,
    /// Errored blocks: the bits at which there were events of wrong parity, path parity or check.
    pub errored_blocks: u64,
    /// Errors that the far end told: the bits at which there were such events.
    pub far_errors: u64,
    /// Its seconds.
    pub seconds: Tally,
    /// The cells of its picture.
    pub cells: [Cell; CELLS],
}

/// What was found of a node of a line.
#[derive(Clone, Copy)]
pub struct NodeHealth {
    /// Where it stands.
    pub path: Path,
    /// The frames that were delivered.
    pub frames: u64,
    /// The delivered frames in which an alignment bit was wrong.
    pub bad: u64,
    /// How many events of each kind there were.
    pub counts: Counts,
    /// Its first codes of the far end alarm and control channel.
    pub codes: FirstCodes,
    /// It was aligned at some time.
    pub aligned: bool,
    /// It was never aligned, and so few bits came that it couldn't be.
    pub too_short: bool,
    /// The place of its first alignment, at least 1, where it wasn't out of alignment before; else 0.
    pub early_bits: u64,
    /// Its course.
    pub course: CourseHealth,
}

/// What was found of a line.
#[derive(Drop)]
pub struct LineHealth {
    /// How many events there were.
    pub events: u64,
    /// The first event that isn't an alignment, if there is one.
    pub first: Option<Placed>,
    /// The last one.
    pub last: Option<Placed>,
    /// The nodes, in the order in which they were given.
    pub nodes: Vec<NodeHealth>,
}
