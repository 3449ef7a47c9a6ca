//! The look at a recording.

ghost use Rattle.std.specs.Prelude.{◌≡◌, IfOk};
ghost use Rattle.pdh_looking.specs.Judging.{line_of};
ghost use Rattle.pdh_looking.specs.Levels.{its_top_stands};
ghost use Rattle.pdh_looking.specs.Looking.{lines_in, is_met_in};
ghost use Rattle.pdh_looking.specs.Answers.{IsFound, IsAnswer, others_by};

use crate::part::Part;
use crate::reading::cut;
use crate::top::Top;
use crate::tops::{judge_as, tops_are_alike};
use crate::{Found, Looked};
use pdh_candidates::{Candidate, Trial, Word, all_candidates, first_that};
use pdh_readings::BitOrder;
use std::alloc::{AllocError, Global};

// The other orders of these in which a part may be the same as this; or it finds no memory.
fn find_others(
    alloc: Global,
    part: &Part,
    found: &Candidate,
    orders: &[BitOrder],
) -> Result<Vec<BitOrder>, AllocError>
    ensures { IfOk result (λ others. others.items ≡ others_by (is_met_in part.now) found.now orders.now) }
{
    let mut others = Vec::new(alloc);
    for order in orders {
        let other = Candidate {
            word: found.word,
            order: *order,
        };
        if *order != found.order && part.meets(alloc, &other)? {
            others.push(*order)?;
        }
    }
    Ok(others)
}

// What is told of a part that is this; or it finds no memory.
fn describe(
    alloc: Global,
    part: &Part,
    candidate: Candidate,
    orders: &[BitOrder],
) -> Result<Found, AllocError>
    ensures { IfOk result (λ found. IsFound (lines_in part.now) (is_met_in part.now) orders.now candidate found) }
{
    let reading = part.read_in(candidate.order);
    let top = Top::of(candidate.word);
    Ok(Found {
        candidate,
        levels: reading.levels(alloc, candidate.word)?,
        also: find_others(alloc, part, &candidate, orders)?,
        alike: tops_are_alike(alloc, top, &reading.line)?,
    })
}

/// Looks at a part of a recording: so many bits of its bytes from a bit on, or as many as there are, in each of these orders. It
/// answers the first chain or framed stream, and the first order, whose frames stand there; or where none does, the frames at
/// tops of which most are right; or it finds no memory.
pub fn look(
    alloc: Global,
    part: &[u8],
    from: u32,
    bits: u64,
    orders: &[BitOrder],
) -> Result<Looked, AllocError>
    ensures { IfOk result (λ looked. IsAnswer part.now from bits orders.now looked) }
{
    let readings = Part::open(alloc, part, from as usize, bits as usize)?;
    let candidates = all_candidates(alloc, orders)?;
    let Some(candidate) = first_that(alloc, &readings, &candidates)? else {
        return Ok(Looked::Nothing(readings.nearest(alloc, orders)?));
    };
    Ok(Looked::Found(describe(alloc, &readings, candidate, orders)?))
}

/// Whether the top of a chain or a stream stands in a part of a recording: so many bits of its bytes from a bit on, or as many as
/// there are, in an order; or it finds no memory.
pub fn top_stands(
    alloc: Global,
    part: &[u8],
    from: u32,
    bits: u64,
    word: Word,
    order: BitOrder,
) -> Result<bool, AllocError>
    ensures { IfOk result (λ stands. stands ≡ its_top_stands word (line_of part.now from bits order)) }
{
    let line = cut(alloc, part, from as usize, bits as usize, order)?;
    let top = Top::of(word);
    Ok(judge_as(alloc, top, &line)?.at_top(top.len(), line.len() as u64))
}
