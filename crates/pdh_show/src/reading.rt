//! The bits of one frame of a line, which list 0 of a feed gives.

ghost use Rattle.std.specs.Prelude.{◌≡◌, ◌<◌, ◌≤◌, ◌*◌, ◌^◌, suc, length, IsTrue, OnOk};
ghost use Rattle.pdh_edge.specs.Ports.{Takes, HasCause, for_leaf};
ghost use Rattle.pdh_show.specs.Showing.{TakesSome, TakesFrame};

use pdh_edge::{Failed, Feed, take_bits};
use pdh_packed::Packed;

// Takes so many bits and lets go of them; `held` has those that were taken last.
fn pass_over<F: Feed>(bits: u64, held: &mut Packed, feed: &mut F) -> Result<(), Failed>
    requires room { 0 < held.old.capacity }
    requires line { IsTrue ((F.inputs feed.old).holds 0) }
    requires enough { bits ≤ (F.inputs feed.old).left 0 }
    ensures fed { F.fed feed.old feed.new }
    ensures cause { HasCause (F.feed_faults feed.old) (F.feed_faults feed.new) result }
    ensures ok { OnOk result (TakesSome bits (F.inputs feed.old) (F.inputs feed.new)) }
    ensures capacity { held.new.capacity ≡ held.old.capacity }
{
    let mut passed = 0;
    while passed < bits {
        held.clear();
        let most = (bits - passed).min(held.capacity() as u64) as usize;
        take_bits(feed, 0, most, held)?;
        passed += most as u64;
    }
    Ok(())
}

// Takes as many bits as `held` has room for, in place of those that it has.
fn take_whole<F: Feed>(held: &mut Packed, feed: &mut F) -> Result<(), Failed>
    requires line { IsTrue ((F.inputs feed.old).holds 0) }
    requires enough { held.old.capacity ≤ (F.inputs feed.old).left 0 }
    ensures fed { F.fed feed.old feed.new }
    ensures cause { HasCause (F.feed_faults feed.old) (F.feed_faults feed.new) result }
    ensures ok { OnOk result (Takes (for_leaf 0 held.new.bits) (F.inputs feed.old) (F.inputs feed.new)) }
    ensures full { OnOk result (length held.new.bits ≡ held.old.capacity) }
{
    held.clear();
    take_bits(feed, 0, held.capacity(), held)
}

/// Takes the frames up to one of this number, whose bits `held` has then. A frame has as many bits as
/// `held` has room for.
pub fn take_frame<F: Feed>(number: u32, held: &mut Packed, feed: &mut F) -> Result<(), Failed>
    requires room { 0 < held.old.capacity }
    requires few { held.old.capacity < 2 ^ 32 }
    requires line { IsTrue ((F.inputs feed.old).holds 0) }
    requires long { suc number * held.old.capacity ≤ (F.inputs feed.old).left 0 }
    ensures fed { F.fed feed.old feed.new }
    ensures cause { HasCause (F.feed_faults feed.old) (F.feed_faults feed.new) result }
    ensures ok { OnOk result
        (TakesFrame held.old.capacity number held.new.bits (F.inputs feed.old) (F.inputs feed.new)) }
{
    let before = u64::from(number) * held.capacity() as u64;
    pass_over(before, held, feed)?;
    take_whole(held, feed)
}
