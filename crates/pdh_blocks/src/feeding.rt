//! Making a bit of a leaf wait, before it is given: where its block is used up, the next one is
//! read.

ghost use Rattle.std.specs.Prelude.{◌≡◌, ◌<◌, length, IsOk, OnOk, IsErrOf};
ghost use Rattle.pdh_edge.specs.declared.port.FeedStop.TheVariants.{Ended, Failed as FeedFailed};
ghost use Rattle.pdh_edge.specs.Ports.{HasFeedCause, GivesWaiting};

use crate::blocks::Blocks;
use pdh_edge::{FeedStop, Shelf};

impl Blocks {
    ghost use Rattle.pdh_blocks.specs.State.{over};
    ghost use Rattle.pdh_blocks.specs.Lists.{inputs_of, waits_in};
    ghost use Rattle.pdh_blocks.specs.Held.{IsPort};
    ghost use Rattle.pdh_blocks.specs.Done.{ReadsAtMost, HasWaiting, IsUnread};

    /// Makes a bit of a leaf wait, where one is left.
    #[inline(always)]
    pub(crate) fn make_due<S: Shelf>(&mut self, shelf: &mut S, leaf: u32) -> Result<(), FeedStop>
        requires port { IsPort (over (S.state shelf.old) self.old) }
        requires held { leaf < length self.old.leaves.items }
        ensures done { ReadsAtMost (over (S.state shelf.old) self.old) (over (S.state shelf.new) self.new) }
        ensures cause { HasFeedCause self.old.feed_faults self.new.feed_faults result }
        ensures ok { OnOk result (HasWaiting leaf (over (S.state shelf.new) self.new)) }
        ensures sure { 0 < waits_in self.old.leaves.items leaf → IsOk result }
        ensures waits { GivesWaiting leaf 0 (waits_in self.old.leaves.items) (waits_in self.new.leaves.items) }
        ensures ended { IsErrOf result Ended
            → (inputs_of (over (S.state shelf.old) self.old)).left leaf ≡ 0 }
        ensures unread { IsErrOf result FeedFailed
            → IsUnread (over (S.state shelf.new) self.new) leaf }
    {
        if self.leaves[leaf as usize].waits() {
            return Ok(());
        }
        self.read_due(shelf, leaf)
    }

    // The same by the next block, where nothing waits.
    #[cold]
    #[inline(never)]
    fn read_due<S: Shelf>(&mut self, shelf: &mut S, leaf: u32) -> Result<(), FeedStop>
        requires port { IsPort (over (S.state shelf.old) self.old) }
        requires held { leaf < length self.old.leaves.items }
        ensures done { ReadsAtMost (over (S.state shelf.old) self.old) (over (S.state shelf.new) self.new) }
        ensures cause { HasFeedCause self.old.feed_faults self.new.feed_faults result }
        ensures ok { OnOk result (HasWaiting leaf (over (S.state shelf.new) self.new)) }
        ensures sure { 0 < waits_in self.old.leaves.items leaf → IsOk result }
        ensures waits { GivesWaiting leaf 0 (waits_in self.old.leaves.items) (waits_in self.new.leaves.items) }
        ensures ended { IsErrOf result Ended
            → (inputs_of (over (S.state shelf.old) self.old)).left leaf ≡ 0 }
        ensures unread { IsErrOf result FeedFailed
            → IsUnread (over (S.state shelf.new) self.new) leaf }
    {
        let list = &mut self.leaves[leaf as usize];
        if list.waits() {
            return Ok(());
        }
        if list.left() == 0 {
            return Err(FeedStop::Ended);
        }
        if list.read(shelf, &mut self.buffer).is_ok() {
            return Ok(());
        }
        self.feed_failed(leaf);
        Err(FeedStop::Failed)
    }
}
