//! The judging of a line by the frames of a shape.

ghost use Rattle.std.specs.Prelude.{◌≡◌, ◌<◌, ◌≤◌, ◌+◌, ◌^◌, Bool, true, false, List, length, take, drop, IfOk};
ghost use Rattle.pdh_shape.specs.Frame.{wrong, clean, is_right};
ghost use Rattle.pdh_align.specs.Aligning.{StandsFor, frame_back, frames_gained};
ghost use Rattle.pdh_judging.specs.Judged.{judged_in, after_step, Glides};

use crate::Judged;
use pdh_align::{Aligner, Step};
use pdh_packed::Packed;
use pdh_shape::{Marks, Shape};
use std::alloc::{AllocError, Global};

// Whether no alignment slot is wrong.
fn is_clean(marks: &Marks) -> bool
    ensures clean { result ≡ true → marks.now ≡ clean }
    ensures wrong { result ≡ false → (marks.now ≡ clean) → ⊥ }
{
    marks.framing == 0 && !marks.multi
}

// Whether the newest of the ready frames is right.
fn newest_is_right<S: Shape>(aligner: &Aligner<S>) -> bool
    requires { 0 < length aligner.now.ready }
    ensures { result ≡ is_right S.shape (frame_back aligner.now.ready 0) }
{
    is_clean(&aligner.marks())
}

/// What is judged of a line with the bit that made this step of its aligner, where `judged` was judged of it before that bit.
pub fn judged_after<S: Shape>(judged: Judged, step: Step, aligner: &Aligner<S>) -> Judged
    requires { length aligner.now.ready ≡ frames_gained step }
    ensures { result ≡ after_step S.shape judged step aligner.now.ready }
{
    match step {
        Step::Frame => judged.with_one(newest_is_right(aligner)),
        Step::Lost => judged.with_one(false),
        _ => judged,
    }
}

// Lets an aligner take bits of a line from a place on that judge no frame, and answers how many.
fn glide<S: Shape>(aligner: &mut Aligner<S>, line: &Packed, from: usize) -> usize
    requires begun { from ≤ length line.now.bits }
    ensures count { from + result ≤ length line.now.bits }
    ensures glides { (front : List Bool) → StandsFor S.shape aligner.old front
        → Glides S.shape aligner.new front (take result (drop from line.now.bits)) }
{
    let taken = aligner.take(line, from, line.len() - from);
    let passed = aligner.pass(line, from + taken, line.len() - from - taken);
    taken + passed
}

/// Judges a line by the frames of a shape, from its first bit on; or it finds no memory.
pub fn judge<S: Shape>(alloc: Global, line: &Packed) -> Result<Judged, AllocError>
    ensures { IfOk result (λ judged. judged ≡ judged_in S.shape line.now.bits) }
{
    let mut aligner = Aligner::<S>::open(alloc)?;
    let mut judged = Judged {
        frames: 0,
        right: 0,
    };
    let len = line.len();
    let mut done = glide(&mut aligner, line, 0);
    while done < len {
        let step = aligner.push(line.get(done));
        judged = judged_after(judged, step, &aligner);
        let more = glide(&mut aligner, line, done + 1);
        done += 1 + more;
    }
    Ok(judged)
}
