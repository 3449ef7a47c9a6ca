//! Which file it is.

use std::fs::Metadata;
use std::os::unix::fs::MetadataExt;

/// Which file it is, whatever name leads to it: its device, and its number there.
#[derive(Clone, Copy, Debug, PartialEq, Eq)]
pub(crate) struct FileId {
    device: u64,
    number: u64,
}

impl FileId {
    /// That of a file of which the system tells this.
    pub(crate) fn of(data: &Metadata) -> FileId {
        FileId {
            device: data.dev(),
            number: data.ino(),
        }
    }
}
