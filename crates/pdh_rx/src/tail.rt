//! The receiver that is a leaf: its bits go to a drain's list.

ghost use Rattle.std.specs.Prelude.{◌≡◌, ◌≤◌, Bool, List, true};
ghost use Rattle.pdh_rx.specs.Tail.{tail_meaning};
ghost use Rattle.pdh_rx.specs.laws.TailLaws.{tail_sound, tail_fits_by};

use crate::{NodeCounts, Rx};
use pdh_edge::{Drain, Failed};
use pdh_packed::Packed;
use pdh_watch::Watch;
use std::alloc::AllocError;

/// Puts the bits that it receives to one leaf of a drain. It notes nothing.
#[derive(Drop)]
pub struct Tail {
    leaf: u32,
}

impl Tail {
    /// Puts bits to this leaf.
    pub fn new(leaf: u32) -> Tail
        ensures meaning { ⟦<Tail as Rx>⟧.meaning result ≡ tail_meaning leaf }
        ensures stands { (line : List Bool) → ⟦<Tail as Rx>⟧.stands result line }
    {
        Tail { leaf }
    }
}

impl Rx for Tail {
    ghost IS_LEAF = { true };

    const IS_LEAF: bool = true;

    ghost stands = { λ t line. Unit {0} };

    ghost meaning = { λ t. tail_meaning t.leaf };

    ghost fits = { λ t room bits. bits ≤ room t.leaf };

    ghost sound = { λ t. tail_sound t.leaf };

    ghost fits_by = { λ t r r' n n' same few fits. tail_fits_by t.leaf r r' n n' same few fits };

    fn push<D: Drain, W: Watch>(
        &mut self,
        bit: bool,
        drain: &mut D,
        _watch: &mut W,
    ) -> Result<(), Failed> {
        drain.put(self.leaf, bit)
    }

    fn frames(&self) -> u64 {
        0
    }

    fn count_nodes(&self, _counts: &mut Vec<NodeCounts>) -> Result<(), AllocError> {
        Ok(())
    }

    fn glide<D: Drain>(
        &mut self,
        bits: &Packed,
        from: usize,
        drain: &mut D,
    ) -> Result<usize, Failed> {
        if from > 0 {
            return Ok(0);
        }
        drain.put_all(self.leaf, bits)?;
        Ok(bits.len())
    }

    #[inline(always)]
    fn is_deaf<D: Drain>(&self, drain: &D) -> bool {
        drain.is_deaf()
    }

    #[inline(always)]
    fn has_room<D: Drain>(&self, drain: &D, bits: usize) -> bool {
        drain.has_room(self.leaf, bits)
    }

    #[inline(always)]
    fn take_in_room<D: Drain>(&mut self, bits: &Packed, drain: &mut D) {
        drain.put_in_room(self.leaf, bits);
    }
}
