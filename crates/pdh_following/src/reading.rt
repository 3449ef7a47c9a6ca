//! The reading of a whole recording.

ghost use Rattle.std.specs.Prelude.{◌≡◌, ◌+◌, ◌++◌, Bool, List, length, OnOk, None};
ghost use Rattle.pdh_placed.specs.Places.{placed_events};
ghost use Rattle.pdh_recording.specs.Given.{bits_left, HasNone};
ghost use Rattle.pdh_following.specs.Following.{GoesOn};
ghost use Rattle.pdh_following.specs.Telling.{Told};

use crate::fault::FollowFault;
use crate::progress::Progress;
use crate::teller::Teller;
use pdh_packed::Packed;
use pdh_placed::{Placing, Recorded};
use pdh_readings::BitOrder;
use pdh_recording::{BLOCK_BITS, Recording};
use std::alloc::Global;
use std::io::{Read, Write};

// Gives a line the bits of a block, and shows what watches each event with its place. It fails where a row can't be written, or where
// a place can't count so many bits.
fn give<L: Recorded, W: Write + Drop>(
    bits: &Packed,
    line: &mut L,
    watch: &mut Placing<Teller<W>>,
) -> Result<(), FollowFault>
    requires { (front : List Bool) × L.stands line.old front }
    ensures same { L.meaning line.new ≡ L.meaning line.old }
    ensures stands { OnOk result ((front : List Bool) → L.stands line.old front → L.stands line.new (front ++ bits.now.bits)) }
    ensures place { OnOk result (watch.new.place ≡ watch.old.place + length bits.now.bits) }
    ensures told { OnOk result ((front : List Bool) → L.stands line.old front → Told W.contents watch.old.watch watch.new.watch
        (placed_events (L.meaning line.old).notes front watch.old.place bits.now.bits)) }
    ensures written { OnOk result (watch.new.watch.fault ≡ None) }
{
    if watch.place.checked_add(bits.len() as u64).is_none() {
        return Err(FollowFault::OutOfMemory);
    }
    line.take(bits, watch);
    match watch.watch.fault {
        Some(fault) => Err(fault),
        None => Ok(()),
    }
}

/// Gives a line the bits of a recording in an order, to the last one, and shows what watches each event with its place. It fails where
/// the recording can't be read or a row can't be written.
pub(crate) fn read_all<L: Recorded, R: Read + Drop, W: Write + Drop, P: Progress>(
    alloc: Global,
    recording: &mut Recording<R>,
    order: BitOrder,
    line: &mut L,
    watch: &mut Placing<Teller<W>>,
    progress: &mut P,
) -> Result<(), FollowFault>
    requires stands { (front : List Bool) × L.stands line.old front }
    requires written { watch.old.watch.fault ≡ None }
    ensures same { L.meaning line.new ≡ L.meaning line.old }
    ensures followed { OnOk result ((front : List Bool) → L.stands line.old front → GoesOn W.contents (L.meaning line.old).notes front (L.stands line.new)
        (bits_left R.remaining order recording.old) (bits_left R.remaining order recording.new) watch.old watch.new) }
    ensures ended { OnOk result (HasNone (bits_left R.remaining order recording.new)) }
    ensures written { OnOk result (watch.new.watch.fault ≡ None) }
{
    let mut bits = Packed::open(alloc, BLOCK_BITS)?;
    for _turn in 0..u64::MAX {
        recording.next(order, &mut bits)?;
        if bits.len() == 0 {
            return Ok(());
        }
        give(&bits, line, watch)?;
        progress.reached(watch.place, watch.watch.events);
    }
    // there are more blocks than can be counted
    Err(FollowFault::OutOfMemory)
}
