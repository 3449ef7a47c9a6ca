//! What a node tells of the line that it received.

use pdh_judging::Judged;
use pdh_shape::Path;

/// What a node counted of its received line. At `u64::MAX` a count stands.
#[derive(Clone, Copy, Debug, PartialEq, Eq)]
pub struct NodeCounts {
    /// The node's place in a chain.
    pub path: Path,
    /// The bits that came.
    pub bits: u64,
    /// The frames that were delivered.
    pub frames: u64,
    /// The frames that were judged by its alignment, and the right ones of them.
    pub judged: Judged,
}
