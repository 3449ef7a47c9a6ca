//! The drill, in which a chain is tested with itself from one number.

ghost use Rattle.std.specs.Prelude.{◌≡◌, ◌≤◌, ◌<◌, IfOk};
ghost use Rattle.std.specs.Bool.{beq};
ghost use Rattle.std.specs.List.{starts_with};
ghost use Rattle.pdh_shape.specs.OwnNumbers.{most_frames};
ghost use Rattle.pdh_patterns.specs.Pattern.{pattern};
ghost use Rattle.pdh_lab.specs.Drill.{drill_of, line_of, IsInTime};
ghost use Rattle.pdh_lab.specs.Steps.{HaveReceived};
ghost use Rattle.pdh_patterns.specs.Leaves.{IsClockOf};

use crate::receiving::receive;
use crate::report::Drill;
use crate::sending::line_from;
use pdh_chain::{Chain, leaves};
use pdh_clock::Schedule;
use pdh_edge::{Drain, MemPort};
use pdh_packed::Packed;
use pdh_patterns::{Pattern, clock_of};
use std::alloc::{AllocError, Global};

// Whether bits are a prefix of the first bits of a leaf's pattern, so many.
fn is_prefix(bits: &Packed, seed: u64, leaf: u32, entered: usize) -> bool
    requires seed { seed ≤ 999999999 }
    requires leaf { leaf < 64 }
    ensures { result ≡ starts_with beq (pattern seed leaf entered) bits.now.bits }
{
    if bits.len() > entered {
        return false;
    }
    let mut pattern = Pattern::new(seed, leaf);
    let mut place = 0;
    while place < bits.len() {
        let count = (bits.len() - place).min(64) as u32;
        if bits.read(place, count).number() != pattern.word(count).number() {
            return false;
        }
        place += count as usize;
    }
    true
}

// What became of the leaves.
fn report(chain: Chain, clock: &Schedule, seed: u64, frames: u64, port: &MemPort) -> Drill
    requires clock { IsClockOf chain frames clock.now }
    requires seed { seed ≤ 999999999 }
    requires few { frames ≤ most_frames }
    requires received { HaveReceived chain (line_of chain seed frames) (⟦<MemPort as Drain>⟧.outputs port.now) }
    ensures { result ≡ drill_of chain seed frames }
{
    let mut drill = Drill::none();
    for leaf in 0..leaves(chain) {
        let entered = clock.entered(leaf, frames) as usize;
        let bits = port.output(leaf);
        let equal = is_prefix(bits, seed, leaf, entered);
        drill = drill.with_leaf(entered as u64, bits.len() as u64, equal);
    }
    drill
}

/// Tests a chain with itself: makes the schedule of so many frames in which neighbouring streams are off to opposite sides,
/// makes the line of the leaves' test patterns, takes it apart again, and reports what came back. The line and the leaves
/// are held in memory, and the error is that memory is wanting.
pub fn drill(alloc: Global, chain: Chain, seed: u64, frames: u64) -> Result<Drill, AllocError>
    requires seed { seed ≤ 999999999 }
    requires few { frames ≤ most_frames }
    ensures report { IfOk result (λ d. d ≡ drill_of chain seed frames) }
    ensures within { IfOk result (λ d. IsInTime chain d) }
{
    let clock = clock_of(alloc, chain, frames)?;
    let line = line_from(alloc, chain, &clock, seed, frames)?;
    let port = receive(alloc, chain, line)?;
    Ok(report(chain, &clock, seed, frames, &port))
}
