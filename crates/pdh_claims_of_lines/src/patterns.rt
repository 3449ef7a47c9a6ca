//! What callers may rely on of the test patterns of leaves.

ghost use Rattle.std.specs.Prelude.{◌≡◌, ◌≤◌, ◌<◌, ◌+◌, [], ◌∷◌, length, slice_index, IsTrue, IfOk};
ghost use Rattle.std.specs.List.{slice_index_or};
ghost use Rattle.pdh_edge.specs.MemLists.{inputs_of};
ghost use Rattle.pdh_shape.specs.OwnNumbers.{most_frames};
ghost use Rattle.pdh_clock.specs.Contents.{counts};
ghost use Rattle.pdh_clock.specs.Made.{made};
ghost use Rattle.pdh_clock.specs.declared.bias.Bias.TheVariants.{Mixed};
ghost use Rattle.pdh_chain.specs.Chains.{levels_of};
ghost use Rattle.pdh_chain.specs.declared.chain.Chain.TheVariants.{E12};
ghost use Rattle.pdh_patterns.specs.Leaves.{IsClockOf, entered_of};
ghost use Rattle.pdh_patterns.specs.Pattern.{pattern};

use pdh_chain::Chain;
use pdh_clock::Schedule;
use pdh_edge::{Feed, FeedStop};
use pdh_packed::Packed;
use pdh_patterns::{Pattern, Patterns, clock_of};
use std::alloc::{AllocError, Global};

/// A register of which bit 13 alone is 1 steps to bit 14 and a new bit 0.
pub fn feedback_of_bit_12(register: &mut Pattern) -> bool
    requires { register.old ≡ 8192 }
    ensures { register.new ≡ 16385 }
{
    register.next()
}

/// The pattern of seed 1 and leaf 0 begins at 65.
#[tactic(auto, unfolding(pdh_patterns::specs::Pattern::state_after))]
pub fn pattern_begins_at_the_seed() -> Pattern
    ensures { result ≡ 65 }
{
    Pattern::new(1, 0)
}

/// Each leaf gives its own pattern.
pub fn every_leaf_gives_the_first_pattern(
    alloc: Global,
    clock: &Schedule,
    seed: u64,
    frames: u64,
) -> Result<Patterns, AllocError>
    requires clock { IsClockOf E12 frames clock.now }
    requires seed { seed ≤ 999999999 }
    requires few { frames ≤ most_frames }
    ensures { IfOk result (λ patterns. ⟦<Patterns as Feed>⟧.inputs patterns ≡ inputs_of
        (pattern seed 0 (entered_of E12 frames 0) ∷ pattern seed 1 (entered_of E12 frames 1)
        ∷ pattern seed 2 (entered_of E12 frames 2) ∷ pattern seed 3 (entered_of E12 frames 3) ∷ [])) }
{
    Patterns::open(alloc, Chain::E12, clock, seed, frames)
}

/// A leaf that gave bits has as many fewer left.
pub fn given_bits_left_over(
    patterns: &mut Patterns,
    most: usize,
    into: &mut Packed,
) -> Result<usize, FeedStop>
    requires held { IsTrue ((⟦<Patterns as Feed>⟧.inputs patterns.old).holds 0) }
    requires some { 0 < most }
    requires room { length into.old.bits + most ≤ into.old.capacity }
    ensures { IfOk result (λ count. (⟦<Patterns as Feed>⟧.inputs patterns.old).left 0
        ≡ count + (⟦<Patterns as Feed>⟧.inputs patterns.new).left 0) }
{
    patterns.bits(0, most, into)
}

/// Neighbouring streams of the leaves' schedule are off to opposite sides.
#[tactic(auto, unfolding(pdh_patterns::specs::Leaves::made_counts))]
pub fn schedule_without_offsets(
    alloc: Global,
    chain: Chain,
    frames: u64,
) -> Result<Schedule, AllocError>
    requires { frames ≤ most_frames }
    ensures { IfOk result (λ clock. counts clock.rows ≡ (λ path trib frame.
        slice_index (slice_index_or (made (levels_of chain) Mixed frames path) frame []) trib)) }
{
    let clock = clock_of(alloc, chain, frames)?;
    Ok(clock)
}
