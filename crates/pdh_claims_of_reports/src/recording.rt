//! The bits of a recording.

ghost use Rattle.std.specs.Prelude.{◌≡◌, ◌++◌, ◌≤◌, ℕ, Bool, List, Some, take, drop, OnOk};
ghost use Rattle.pdh_readings.specs.Orders.{read_as};
ghost use Rattle.pdh_readings.specs.declared.bit_order.BitOrder.{BitOrder as Order};
ghost use Rattle.pdh_recording.specs.Given.{bits_left};

use pdh_packed::Packed;
use pdh_readings::BitOrder;
use pdh_recording::{Fault, Recording};
use std::alloc::Global;
use std::io::Read;

/// A recording from its bit 7 on has the bits behind the first seven.
pub fn first_bit_off_by_one<R: Read + Drop>(alloc: Global, reader: R, most: u64) -> Recording<R>
    ensures { (order : Order) (bytes : List ℕ) → R.remaining reader ≡ Some bytes
        → bits_left R.remaining order result ≡ Some (take most (drop 7 (read_as order bytes))) }
{
    Recording::new(alloc, reader, 7, most, false)
}

/// The bits that a recording gave, and then those that it has left, are those that it had.
pub fn fewer_bits_left<R: Read + Drop>(
    recording: &mut Recording<R>,
    order: BitOrder,
    into: &mut Packed,
) -> Result<(), Fault>
    requires { 524288 ≤ into.old.capacity }
    ensures { OnOk result ((had left : List Bool) → bits_left R.remaining order recording.old ≡ Some had
        → bits_left R.remaining order recording.new ≡ Some left → had ≡ into.new.bits ++ left) }
{
    recording.next(order, into)
}

/// The bits that are read ahead come all the same.
pub fn passed_byte_lost<R: Read + Drop>(recording: &mut Recording<R>) -> Result<(), Fault>
    ensures { OnOk result ((order : Order) (had left : List Bool) → bits_left R.remaining order recording.old ≡ Some had
        → bits_left R.remaining order recording.new ≡ Some left → had ≡ left) }
{
    recording.read_part()
}
