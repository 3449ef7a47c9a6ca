//! What the leaves of a drill give.

ghost use Rattle.std.specs.Prelude.{◌≡◌, ◌<◌, ◌≤◌, IfOk};
ghost use Rattle.pdh_shape.specs.OwnNumbers.{most_frames};
ghost use Rattle.pdh_chain.specs.Chains.{leaves_of};
ghost use Rattle.pdh_patterns.specs.Pattern.{pattern};
ghost use Rattle.pdh_lab.specs.Steps.{AreInputs};
ghost use Rattle.pdh_patterns.specs.Leaves.{IsClockOf};

use pdh_chain::{Chain, leaves};
use pdh_clock::Schedule;
use pdh_packed::Packed;
use pdh_patterns::Pattern;
use std::alloc::{AllocError, Global};

// The first bits of a leaf's pattern, so many.
fn pattern_of(alloc: Global, seed: u64, leaf: u32, bits: usize) -> Result<Packed, AllocError>
    requires seed { seed ≤ 999999999 }
    requires leaf { leaf < 64 }
    ensures { IfOk result (λ list. list.bits ≡ pattern seed leaf bits) }
{
    let mut pattern = Pattern::new(seed, leaf);
    let mut list = Packed::open(alloc, bits)?;
    let mut made = 0;
    while made < bits {
        let count = (bits - made).min(64);
        list.append(pattern.word(count as u32));
        made += count;
    }
    Ok(list)
}

/// What each leaf gives: as many bits of its pattern as enter.
pub fn inputs_of(
    alloc: Global,
    chain: Chain,
    clock: &Schedule,
    seed: u64,
    frames: u64,
) -> Result<Vec<Packed>, AllocError>
    requires clock { IsClockOf chain frames clock.now }
    requires seed { seed ≤ 999999999 }
    requires few { frames ≤ most_frames }
    ensures { IfOk result (λ inputs. AreInputs chain seed frames (leaves_of chain) inputs.items) }
{
    let mut inputs = Vec::new(alloc);
    for leaf in 0..leaves(chain) {
        let bits = clock.entered(leaf, frames) as usize;
        inputs.push(pattern_of(alloc, seed, leaf, bits)?)?;
    }
    Ok(inputs)
}
