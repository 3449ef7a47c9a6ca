//! The schedule by which the leaves give their patterns.

ghost use Rattle.std.specs.Prelude.{◌≤◌, IfOk};
ghost use Rattle.pdh_shape.specs.OwnNumbers.{most_frames};
ghost use Rattle.pdh_patterns.specs.Leaves.{IsClockOf};

use pdh_chain::Chain;
use pdh_clock::{Bias, Schedule};
use std::alloc::{AllocError, Global};

/// The schedule of so many frames in which neighbouring streams are off to opposite sides.
pub fn clock_of(alloc: Global, chain: Chain, frames: u64) -> Result<Schedule, AllocError>
    requires { frames ≤ most_frames }
    ensures { IfOk result (λ clock. IsClockOf chain frames clock) }
{
    Schedule::from_ppm(alloc, chain.levels(), frames, Bias::Mixed)
}
