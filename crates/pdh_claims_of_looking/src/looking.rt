//! Of the look at a recording.

ghost use Rattle.std.specs.Prelude.{◌≡◌, ◌*◌, ◌≤◌, codes, length, true, IfOk};
ghost use Rattle.pdh_eframes.specs.Plans.{e2};
ghost use Rattle.pdh_judging.specs.Judged.{judged_in};
ghost use Rattle.pdh_looking.specs.Judging.{line_of};

use pdh_candidates::Word;
use pdh_looking::{Level, Looked, look, top_stands};
use pdh_readings::BitOrder;
use std::alloc::{AllocError, Global};

/// The level of 6312 kbit/s has the name `DS2`.
pub fn ds2_called_ds3() -> &'static str
    ensures { result.now ≡ codes "DS2" }
{
    Level::Ds2.name()
}

/// Of a recording that is none of these at most three frames at tops are told.
pub fn four_are_told(
    alloc: Global,
    part: &[u8],
    from: u32,
    bits: u64,
    orders: &[BitOrder],
) -> Result<usize, AllocError>
    ensures { IfOk result (λ told. told ≤ 3) }
{
    let looked = look(alloc, part, from, bits, orders)?;
    match looked {
        Looked::Found(_) => Ok(0),
        Looked::Nothing(nearest) => Ok(nearest.len()),
    }
}

/// Where the top of a given chain stands, its right frames are an eighth of the line at least.
pub fn given_chain_in_a_sixty_fourth_of_the_line(
    alloc: Global,
    part: &[u8],
    from: u32,
    bits: u64,
    order: BitOrder,
) -> Result<bool, AllocError>
    ensures { IfOk result (λ stands. stands ≡ true
        → let line = line_of part.now from bits order in length line ≤ 8 * (judged_in e2 line).right * 848) }
{
    top_stands(alloc, part, from, bits, Word::E12, order)
}
