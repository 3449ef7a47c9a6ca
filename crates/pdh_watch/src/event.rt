//! An event of a received line.

use crate::Kind;
use pdh_shape::Path;

/// Something that a bit of a node's received line shows.
#[derive(Clone, Copy, Debug, PartialEq, Eq)]
pub struct Event {
    /// What it shows: one kind.
    pub kind: Kind,
    /// The node.
    pub path: Path,
    /// The number of the bit in the node's received line, counted from 0.
    pub bit: u64,
    /// The code of a feac event; 0 for every other kind.
    pub value: u8,
}
