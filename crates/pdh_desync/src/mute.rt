//! The receiver that takes bits and puts none.

ghost use Rattle.std.specs.Prelude.{◌≡◌, Bool, false, List};
ghost use Rattle.pdh_desync.specs.Smooth.{mute_meaning};
ghost use Rattle.pdh_desync.specs.laws.SmoothSound.{mute_sound};

use pdh_edge::{Drain, Failed};
use pdh_packed::Packed;
use pdh_rx::{NodeCounts, Rx};
use pdh_watch::Watch;
use std::alloc::AllocError;

/// Takes bits and puts none. It notes nothing.
#[derive(Drop)]
pub struct Mute;

impl Mute {
    /// One that has taken no bit.
    pub fn new() -> Mute
        ensures meaning { ⟦<Mute as Rx>⟧.meaning result ≡ mute_meaning }
        ensures stands { (line : List Bool) → ⟦<Mute as Rx>⟧.stands result line }
    {
        Mute
    }
}

impl Rx for Mute {
    ghost IS_LEAF = { false };

    const IS_LEAF: bool = false;

    ghost stands = { λ t line. Unit {0} };

    ghost meaning = { λ t. mute_meaning };

    // it needs no room
    ghost fits = { λ t room bits. Unit {0} };

    ghost sound = { λ t. mute_sound };

    ghost fits_by = { λ t r r' n n' same few fits. fits };

    fn push<D: Drain, W: Watch>(
        &mut self,
        _bit: bool,
        _drain: &mut D,
        _watch: &mut W,
    ) -> Result<(), Failed> {
        Ok(())
    }

    fn frames(&self) -> u64 {
        0
    }

    fn count_nodes(&self, _counts: &mut Vec<NodeCounts>) -> Result<(), AllocError> {
        Ok(())
    }

    fn glide<D: Drain>(
        &mut self,
        bits: &Packed,
        from: usize,
        _drain: &mut D,
    ) -> Result<usize, Failed> {
        Ok(bits.len() - from)
    }

    #[inline(always)]
    fn is_deaf<D: Drain>(&self, _drain: &D) -> bool {
        false
    }

    #[inline(always)]
    fn has_room<D: Drain>(&self, _drain: &D, _bits: usize) -> bool {
        true
    }

    #[inline(always)]
    fn take_in_room<D: Drain>(&mut self, _bits: &Packed, _drain: &mut D) {}
}
