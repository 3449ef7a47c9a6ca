//! What the nodes of a line have counted.

ghost use Rattle.std.specs.Prelude.{◌≡◌, Bool, List, IfOk, map};
ghost use Rattle.pdh_following.specs.Numbers.{numbers_of as numbers_of_counts};

use pdh_health::NodeNumbers;
use pdh_placed::Recorded;
use std::alloc::{AllocError, Global};

/// What the nodes of a line have counted, in the order of paths; or the refusal of memory.
pub(crate) fn numbers_of<L: Recorded>(
    alloc: Global,
    line: &L,
) -> Result<Vec<NodeNumbers>, AllocError>
    ensures { IfOk result (λ numbers. (bits : List Bool) → L.stands line.now bits
        → numbers.items ≡ map numbers_of_counts ((L.meaning line.now).counted bits)) }
{
    let mut counts = Vec::new(alloc);
    line.count_nodes(&mut counts)?;
    let mut numbers = Vec::with_capacity(alloc, counts.len())?;
    for node in &counts {
        numbers.push(NodeNumbers {
            path: node.path,
            bits: node.bits,
            frames: node.frames,
            judged: node.judged.frames,
            right: node.judged.right,
        })?;
    }
    Ok(numbers)
}
