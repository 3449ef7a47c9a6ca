//! What callers may rely on of the calls of a shelf for a command's files.

ghost use Rattle.std.specs.Prelude.{◌≡◌, OnOk};
ghost use Rattle.pdh_answers.specs.Names.{name_of};
ghost use Rattle.pdh_runner.specs.Reading.{HasLength};

use pdh_answers::{File, Stop};
use pdh_edge::Shelf;
use pdh_runner::files::read;
use std::alloc::Global;

/// A call that failed isn't made again: where the bytes came no fault was counted.
pub fn asks_again_after_a_failed_read<S: Shelf>(
    alloc: Global,
    shelf: &mut S,
    file: File,
    bytes: u64,
) -> Result<Vec<u8>, Stop>
    requires { HasLength (name_of file) bytes (S.state shelf.old) }
    ensures { OnOk result ((S.state shelf.new).counts ≡ (S.state shelf.old).counts) }
{
    read(alloc, shelf, file, bytes)
}
