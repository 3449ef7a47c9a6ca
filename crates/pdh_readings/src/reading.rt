//! The bits of bytes in an order.

ghost use Rattle.std.specs.Prelude.{◌≡◌, IfOk};
ghost use Rattle.pdh_readings.specs.Orders.{reversed_bits, read_as};

use crate::BitOrder;
use pdh_packed::Packed;
use std::alloc::{AllocError, Global};

// The bits of bytes, the least significant bit of each byte first.
fn of_reversed(alloc: Global, bytes: &[u8]) -> Result<Packed, AllocError>
    ensures { IfOk result (λ list. list.bits ≡ reversed_bits bytes.now) }
{
    let Some(capacity) = bytes.len().checked_mul(8) else {
        return Err(AllocError);
    };
    let mut list = Packed::open(alloc, capacity)?;
    for byte in bytes {
        list.append_bytes(&[byte.reverse_bits()]);
    }
    Ok(list)
}

/// The bits of bytes in an order; or the refusal of memory for them.
pub fn read(alloc: Global, bytes: &[u8], order: BitOrder) -> Result<Packed, AllocError>
    ensures { IfOk result (λ list. list.bits ≡ read_as order bytes.now) }
{
    let mut list = if order.lsb_first {
        of_reversed(alloc, bytes)?
    } else {
        Packed::of_bytes(alloc, bytes)?
    };
    if order.inverted {
        list.invert();
    }
    Ok(list)
}
