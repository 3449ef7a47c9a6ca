//! A shelf in memory that tells whose call failed.

ghost use Rattle.std.specs.Prelude.{◌≡◌, length, true, IfOk, OnOk, OnErr};
ghost use Rattle.pdh_edge.specs.Files.{Looks, Touches, FailsToRead, HasSize, HasRange, Starts, FailsToStart, Appends, FailsToAppend};

use arrayvec::ArrayString;
use pdh_edge::{Failed, MemShelf, Shelf};

/// A shelf in memory, and the name of the file whose call failed last.
#[derive(Drop)]
pub struct Watched {
    pub shelf: MemShelf,
    pub failed: Option<ArrayString<32>>,
}

impl Watched {
    // Notes the name of a call that failed.
    fn note(&mut self, name: &str)
        ensures { self.new.shelf ≡ self.old.shelf }
    {
        self.failed = ArrayString::from(name).ok();
    }
}

impl Shelf for Watched {
    ghost state = { λ watched. ⟦<MemShelf as Shelf>⟧.state watched.shelf };

    fn read_faults(&self) -> u64 {
        self.shelf.read_faults()
    }

    fn write_faults(&self) -> u64 {
        self.shelf.write_faults()
    }

    fn misses(&self) -> u64 {
        self.shelf.misses()
    }

    fn size(&mut self, name: &str) -> Result<Option<u64>, Failed> {
        match self.shelf.size(name) {
            Ok(size) => Ok(size),
            Err(failed) => {
                self.note(name);
                Err(failed)
            }
        }
    }

    fn read_at(&mut self, name: &str, at: u64, into: &mut [u8]) -> Result<(), Failed> {
        match self.shelf.read_at(name, at, into) {
            Ok(()) => Ok(()),
            Err(failed) => {
                self.note(name);
                Err(failed)
            }
        }
    }

    fn start(&mut self, name: &str) -> Result<(), Failed> {
        match self.shelf.start(name) {
            Ok(()) => Ok(()),
            Err(failed) => {
                self.note(name);
                Err(failed)
            }
        }
    }

    fn append(&mut self, name: &str, bytes: &[u8]) -> Result<(), Failed> {
        match self.shelf.append(name, bytes) {
            Ok(()) => Ok(()),
            Err(failed) => {
                self.note(name);
                Err(failed)
            }
        }
    }
}
