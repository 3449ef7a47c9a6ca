//! A second of a line.

/// What a second of a line showed.
#[derive(Clone, Copy, Debug, PartialEq, Eq)]
pub struct Second {
    /// It holds an errored block, or a bit that is out of alignment or in AIS.
    pub errored: bool,
    /// It holds a bit that is out of alignment or in AIS, or too many of its blocks are errored.
    pub severe: bool,
    /// The far end told an error in it.
    pub far: bool,
}
