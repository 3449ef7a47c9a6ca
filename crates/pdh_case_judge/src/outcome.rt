//! What a run left.

use crate::files::Files;

/// What a run left, and which of its calls failed.
#[derive(Drop)]
pub struct Outcome {
    /// The status.
    pub status: u8,
    /// The text.
    pub text: Vec<u8>,
    /// The files.
    pub files: Files,
    /// How many calls failed.
    pub faults: u64,
    /// The name of the file whose call failed last, or nothing.
    pub failed: String,
}
