//! What callers may rely on of the commands of framed lines.

ghost use Rattle.std.specs.Prelude.{◌≡◌, Err};
ghost use Rattle.pdh_answers.specs.declared.file.File.TheVariants.{E1Line};
ghost use Rattle.pdh_answers.specs.declared.answer.Stop.TheVariants.{Read};

use pdh_answers::{Done, Stop};
use pdh_edge::Shelf;
use pdh_streams::unpack_e1;
use std::alloc::Global;

/// Where the line can't be read the payload's file stays as it was.
pub fn output_emptied_before_a_failed_read<S: Shelf>(
    alloc: Global,
    shelf: &mut S,
) -> Result<Done, Stop>
    ensures { result ≡ Err (Read E1Line) → (S.state shelf.new).told ≡ (S.state shelf.old).told }
{
    unpack_e1(alloc, shelf)
}
