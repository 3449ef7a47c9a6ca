//! A slip.

use pdh_shape::Place;

/// A slip: an overflow or an underflow of a store that re-centred and went on.
#[derive(Clone, Copy, Debug, PartialEq, Eq)]
pub struct Slip {
    /// Whether the store overflowed; else it underflowed.
    pub over: bool,
    /// Where.
    pub place: Place,
}
