//! The leaves of a chain, each of which gives its pattern.

ghost use Rattle.std.specs.Prelude.{◌≡◌, ◌≤◌, map, IfOk};
ghost use Rattle.std.specs.List.{range_with_len};
ghost use Rattle.std.proofs.Common.{refl, ◌∙◌, arith, ap};
ghost use Rattle.pdh_edge.specs.MemLists.{inputs_of, length_of};
ghost use Rattle.pdh_shape.specs.OwnNumbers.{most_frames};
ghost use Rattle.pdh_chain.specs.Chains.{leaves_of};
ghost use Rattle.pdh_patterns.specs.Leaves.{input_of, IsClockOf};
ghost use Rattle.pdh_patterns.specs.Patterns.{pattern_inputs};

use crate::pattern::Pattern;
use pdh_chain::{Chain, leaves};
use pdh_clock::Schedule;
use pdh_edge::{Feed, FeedStop};
use pdh_packed::Packed;
use std::alloc::{AllocError, Global};

// The pattern of a leaf, of which so many bits are left.
#[derive(Drop)]
struct LeafPattern {
    pattern: Pattern,
    left: u64,
}

/// The leaves of a chain: each gives as many bits of its pattern as enter. No list of them is held, and no call fails.
#[derive(Drop)]
pub struct Patterns {
    leaves: Vec<LeafPattern>,
}

impl Patterns {
    /// The leaves by the schedule of so many frames of the chain; or there is no memory.
    pub fn open(
        alloc: Global,
        chain: Chain,
        clock: &Schedule,
        seed: u64,
        frames: u64,
    ) -> Result<Patterns, AllocError>
        requires clock { IsClockOf chain frames clock.now }
        requires seed { seed ≤ 999999999 }
        requires few { frames ≤ most_frames }
        ensures { IfOk result (λ patterns. ⟦<Patterns as Feed>⟧.inputs patterns
            ≡ inputs_of (map (input_of chain seed frames) (range_with_len 0 (leaves_of chain)))) }
    {
        let mut list = Vec::new(alloc);
        for leaf in 0..leaves(chain) {
            list.push(LeafPattern {
                pattern: Pattern::new(seed, leaf),
                left: clock.entered(leaf, frames) as u64,
            })?;
        }
        Ok(Patterns { leaves: list })
    }
}

impl Feed for Patterns {
    ghost inputs = { λ p. pattern_inputs p.leaves.items };

    ghost feed_faults = { λ p. 0 };

    ghost waits = { λ p. (pattern_inputs p.leaves.items).left };

    ghost fed = { λ a b. (pattern_inputs b.leaves.items).holds ≡ (pattern_inputs a.leaves.items).holds };

    ghost unread = { λ p k. ⊥ };

    ghost fed_same = { λ a. refl };

    ghost fed_join = { λ a b c p q. q ∙ p };

    ghost fed_holds = { λ a b p. p };

    ghost fed_counts = { λ a b p. Prim.omega arith };

    ghost left_told = { λ a k bits h. ap length_of h };

    ghost waits_left = { λ a k. Prim.omega arith };

    fn feed_faults(&self) -> u64 {
        0
    }

    fn bit(&mut self, leaf: u32) -> Result<bool, FeedStop> {
        let source = &mut self.leaves[leaf as usize];
        if source.left == 0 {
            return Err(FeedStop::Ended);
        }
        source.left -= 1;
        Ok(source.pattern.next())
    }

    fn bits(&mut self, leaf: u32, most: usize, into: &mut Packed) -> Result<usize, FeedStop> {
        let source = &mut self.leaves[leaf as usize];
        if source.left == 0 {
            return Err(FeedStop::Ended);
        }
        let count = source.left.min(most.min(64) as u64);
        source.left -= count;
        into.append(source.pattern.word(count as u32));
        Ok(count as usize)
    }

    fn left(&self, leaf: u32) -> u64 {
        self.leaves[leaf as usize].left
    }

    fn waiting(&self, leaf: u32) -> u64 {
        self.leaves[leaf as usize].left
    }
}
