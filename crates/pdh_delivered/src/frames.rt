//! The delivered frames of a line, one by one.

ghost use Rattle.std.specs.Prelude.{◌≡◌, ◌≤◌, ◌+◌, List, Bool, length, take, drop, fold, OnOk};
ghost use Rattle.pdh_align.specs.Aligning.{StandsFor};
ghost use Rattle.pdh_delivered.specs.Deliveries.{deliveries, Glides};

use crate::Visitor;
use crate::recent::Recent;
use pdh_align::Aligner;
use pdh_packed::Packed;
use pdh_shape::Shape;
use std::alloc::{AllocError, Global};

// Lets an aligner take bits of a line from a place on that deliver no frame, and answers how many.
fn glide<S: Shape>(aligner: &mut Aligner<S>, line: &Packed, from: usize) -> usize
    requires begun { from ≤ length line.now.bits }
    ensures count { from + result ≤ length line.now.bits }
    ensures glides { (front : List Bool) → StandsFor S.shape aligner.old front
        → Glides S.shape aligner.new front (take result (drop from line.now.bits)) }
{
    let taken = aligner.take(line, from, line.len() - from);
    let passed = aligner.pass(line, from + taken, line.len() - from - taken);
    taken + passed
}

/// Shows a visitor each delivered frame of a line in order; or it finds no memory.
pub fn each_frame<S: Shape, V: Visitor<S>>(
    alloc: Global,
    line: &Packed,
    visitor: &mut V,
) -> Result<(), AllocError>
    ensures { OnOk result (visitor.new ≡ fold V.shown visitor.old (deliveries S.shape line.now.bits)) }
{
    let mut aligner = Aligner::<S>::open(alloc)?;
    let mut recent = Recent::<S>::open(alloc)?;
    let len = line.len();
    let mut done = glide(&mut aligner, line, 0);
    while done < len {
        let step = aligner.push(line.get(done));
        recent.follow(&aligner, step, visitor);
        let more = glide(&mut aligner, line, done + 1);
        done += 1 + more;
    }
    Ok(())
}
