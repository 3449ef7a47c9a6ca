//! What a table answers of a tributary that breaks the tolerance.

/// A run of frames over which a tributary isn't within the tolerance.
#[derive(Clone, Copy, Debug, PartialEq, Eq)]
pub struct Outside {
    /// The run's first frame.
    pub from: u64,
    /// The first frame behind the run.
    pub to: u64,
    /// How many bits arrive in the run.
    pub sum: u64,
}
