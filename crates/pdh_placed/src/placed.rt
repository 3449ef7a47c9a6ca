//! An event with its place.

use pdh_watch::Event;

/// An event, and the bit of the top's line with which it comes, counted from 0.
#[derive(Clone, Copy, Debug, PartialEq, Eq)]
pub struct Placed {
    /// The event.
    pub event: Event,
    /// The bit.
    pub place: u64,
}
