//! The stages in the alignment of a framed 2048 kbit/s line.

/// How far an alignment has come.
#[derive(Clone, Copy, Debug, PartialEq, Eq)]
pub(crate) enum Stage {
    /// A search for frames.
    Searching,
    /// Frames are found.
    Aligned,
    /// Multiframes are found.
    Framed,
}
