//! Where a leaf's bits come from.

/// What a leaf's bits come from: the first bits of a file, so many.
#[derive(Drop)]
pub struct Source {
    /// The file's name.
    pub name: String,
    /// How many of its first bits the leaf has.
    pub bits: u64,
}
