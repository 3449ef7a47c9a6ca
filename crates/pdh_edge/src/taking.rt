//! Taking so many bits of a list that has them.

ghost use Rattle.std.specs.Prelude.{◌≡◌, ◌+◌, ◌<◌, ◌≤◌, length, IsTrue, OnOk, OnErr};
ghost use Rattle.pdh_packed.specs.Gaining.{gained, IsGrown};
ghost use Rattle.pdh_edge.specs.Ports.{Takes, HasCause, for_leaf};

use crate::{Failed, Feed, FeedStop};
use pdh_packed::Packed;

/// Takes the next bits of a leaf's list, so many, which it has, appends them to `into`, and leaves the
/// other lists. It fails only where a call of the feed failed, and has taken and appended fewer then.
#[inline(always)]
pub fn take_bits<F: Feed>(
    feed: &mut F,
    leaf: u32,
    count: usize,
    into: &mut Packed,
) -> Result<(), Failed>
    requires held { IsTrue ((F.inputs feed.old).holds leaf) }
    requires enough { count ≤ (F.inputs feed.old).left leaf }
    requires room { length into.old.bits + count ≤ into.old.capacity }
    ensures grown { IsGrown into.old into.new (length (gained into.old into.new)) }
    ensures ok { OnOk result (length (gained into.old into.new) ≡ count) }
    ensures err { OnErr result (length (gained into.old into.new) < count) }
    ensures takes { Takes (for_leaf leaf (gained into.old into.new)) (F.inputs feed.old) (F.inputs feed.new) }
    ensures cause { HasCause (F.feed_faults feed.old) (F.feed_faults feed.new) result }
    ensures unread { OnErr result (F.unread feed.new leaf) }
    ensures fed { F.fed feed.old feed.new }
{
    let mut taken = 0;
    while taken < count {
        match feed.bits(leaf, count - taken, into) {
            Ok(more) => taken += more,
            Err(FeedStop::Failed) => return Err(Failed),
            // The list had all bits that are asked for, and so has those that are still wanted.
            Err(FeedStop::Ended) => unreachable!(),
        }
    }
    Ok(())
}
