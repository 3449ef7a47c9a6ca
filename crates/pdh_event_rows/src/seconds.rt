//! Times of bits.

ghost use Rattle.std.specs.Prelude.{◌≡◌, ◌<◌, ◌^◌, IfOk, string_bytes};
ghost use Rattle.pdh_event_rows.specs.Rows.{seconds_text};

use std::alloc::{AllocError, Global};

// How many nanoseconds a second has.
const NANOS: u64 = 1_000_000_000;

/// The time of a bit at a rate in bits a second, in seconds with nine digits, cut off; or the refusal of memory.
pub fn seconds(alloc: Global, bit: u64, rate: u64) -> Result<String, AllocError>
    requires some { 0 < rate }
    requires few { rate < 2 ^ 30 }
    ensures { IfOk result (λ text. string_bytes text ≡ seconds_text rate bit) }
{
    let whole = bit / rate;
    let nanos = bit % rate * NANOS / rate;
    format!(in alloc; "{whole}.{nanos:09}")
}
