//! What callers may rely on of drills.

ghost use Rattle.std.specs.Prelude.{◌≡◌, ◌≤◌, ◌-◌, max, fold, map, IfOk};
ghost use Rattle.std.specs.List.{range_with_len};
ghost use Rattle.pdh_shape.specs.OwnNumbers.{most_frames};
ghost use Rattle.pdh_chain.specs.Chains.{delay_of, leaves_of};
ghost use Rattle.pdh_patterns.specs.Leaves.{entered_of};
ghost use Rattle.pdh_lab.specs.Drill.{out_of};

use pdh_chain::Chain;
use pdh_lab::{Drill, drill};
use std::alloc::{AllocError, Global};

/// What comes back of each leaf is what it gave.
pub fn compared_with_another_pattern(
    alloc: Global,
    chain: Chain,
    seed: u64,
    frames: u64,
) -> Result<Drill, AllocError>
    requires seed { seed ≤ 999999999 }
    requires few { frames ≤ most_frames }
    ensures { IfOk result (λ drill. drill.equal ≡ drill.leaves) }
{
    drill(alloc, chain, seed, frames)
}

/// No leaf comes back later than the chain's delay.
pub fn half_of_the_line_received(
    alloc: Global,
    chain: Chain,
    seed: u64,
    frames: u64,
) -> Result<Drill, AllocError>
    requires seed { seed ≤ 999999999 }
    requires few { frames ≤ most_frames }
    ensures { IfOk result (λ drill. drill.late ≤ delay_of chain) }
{
    drill(alloc, chain, seed, frames)
}

/// A drill tells the leaf that is the latest.
#[tactic(auto, unfolding(pdh_lab::specs::Drill::drill_of))]
pub fn late_of_the_last_leaf(
    alloc: Global,
    chain: Chain,
    seed: u64,
    frames: u64,
) -> Result<Drill, AllocError>
    requires seed { seed ≤ 999999999 }
    requires few { frames ≤ most_frames }
    ensures { IfOk result (λ drill. drill.late ≡ fold max 0
        (map (λ leaf. entered_of chain frames leaf - out_of chain seed frames leaf) (range_with_len 0 (leaves_of chain)))) }
{
    drill(alloc, chain, seed, frames)
}
