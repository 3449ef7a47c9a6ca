//! The leaves to which far stores give out.

/// The first of the leaves that get what comes out of the far stores, one for each tributary, and the first of those that get its
/// marks.
#[derive(Clone, Copy)]
pub struct Leaves {
    /// The first of those for what comes out.
    pub first: u32,
    /// The first of those for marks.
    pub marks: u32,
}
