//! Files that stay open between calls.

ghost use Rattle.std.specs.Prelude.{◌<◌, length, IfSome};

use arrayvec::ArrayString;
use std::alloc::Global;
use std::fs::Metadata;
use std::os::unix::fs::MetadataExt;

// How many files stay open, and how many bytes their names have at most.
const MOST_FILES: usize = 132;

const MOST_NAME: usize = 32;

/// Which file it is, whatever name leads to it: its device, and its number there.
#[derive(Clone, Copy, PartialEq, Eq)]
pub(crate) struct FileId {
    device: u64,
    number: u64,
}

impl FileId {
    /// That of a file with this metadata, where the system tells it.
    pub(crate) fn of(data: &Metadata) -> Option<FileId> {
        let (device, number) = (data.dev(), data.ino());
        (number != 0).then_some(FileId { device, number })
    }
}

/// An open file: which one it is, where that is known, and the place from which it reads on.
#[derive(Drop)]
pub(crate) struct OpenFile<F: Drop> {
    pub(crate) file: F,
    pub(crate) id: Option<FileId>,
    pub(crate) place: u64,
}

// What stays open: the name that it was opened by, and whether that was for reading or else for appending.
#[derive(Drop)]
struct Entry<F: Drop> {
    name: ArrayString<MOST_NAME>,
    is_read: bool,
    open: OpenFile<F>,
}

/// Files that stay open, to be read or to be appended to: the first 132 that are kept, of names of at
/// most 32 bytes, as long as memory is found for them.
#[derive(Drop)]
pub(crate) struct OpenFiles<F: Drop> {
    entries: Vec<Entry<F>>,
}

impl<F: Drop> OpenFiles<F> {
    /// None.
    pub(crate) fn new(alloc: Global) -> OpenFiles<F> {
        OpenFiles {
            entries: Vec::new(alloc),
        }
    }

    // Where the file of this name stands that is read, or the one that is appended to.
    fn place(&self, name: &str, is_read: bool) -> Option<usize>
        ensures { IfSome result (λ place. place < length self.now.entries.items) }
    {
        self.entries.iter().position(|entry| entry.is_read == is_read
            && entry.name.as_str() == name)
    }

    /// Takes out the file of this name that is read, or else the one that is appended to.
    pub(crate) fn take(&mut self, name: &str, is_read: bool) -> Option<OpenFile<F>> {
        let place = self.place(name, is_read)?;
        Some(self.entries.swap_remove(place).open)
    }

    /// Keeps a file open that is read, or else one that is appended to, where there is room for it and
    /// for its name; else it is closed.
    pub(crate) fn keep(&mut self, name: &str, is_read: bool, open: OpenFile<F>) {
        if self.entries.len() >= MOST_FILES {
            return;
        }
        if let Ok(name) = ArrayString::from(name) {
            let _ = self.entries.push(Entry {
                name,
                is_read,
                open,
            });
        }
    }

    /// Closes what is open of this name.
    pub(crate) fn close(&mut self, name: &str) {
        let _ = self.take(name, true);
        let _ = self.take(name, false);
    }

    /// Whether a file is one that is read by another name.
    pub(crate) fn is_read_as_another(&self, id: FileId, name: &str) -> bool {
        self.entries.iter().any(|entry| entry.is_read
            && entry.open.id == Some(id)
            && entry.name.as_str() != name)
    }
}
