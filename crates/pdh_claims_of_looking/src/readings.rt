//! Of the orders in which bits are read.

ghost use Rattle.std.specs.Prelude.{◌≡◌, ◌∷◌, true, false, replicate, IfOk};

use pdh_packed::Packed;
use pdh_readings::{BitOrder, read};
use std::alloc::{AllocError, Global};

/// With the least significant bit first, the byte 1 begins with a 1.
pub fn bytes_not_reversed(alloc: Global) -> Result<Packed, AllocError>
    ensures { IfOk result (λ list. list.bits ≡ true ∷ replicate 7 false) }
{
    read(
        alloc,
        &[1],
        BitOrder {
            lsb_first: true,
            inverted: false,
        },
    )
}
