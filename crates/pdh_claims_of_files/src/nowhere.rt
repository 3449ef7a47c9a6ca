//! A claim on `pdh_nowhere`.

ghost use Rattle.std.specs.Prelude.{◌≡◌};

use pdh_edge::Drain;
use pdh_nowhere::Nowhere;

/// A drain that lets go of all bits counts no fault.
pub fn fault_counted_that_never_came(drain: &Nowhere) -> u64
    ensures { result ≡ 0 }
{
    drain.drain_faults()
}
