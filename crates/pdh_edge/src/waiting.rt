//! What waits in a feed's lists, as a feed of its own that never fails.

ghost use Rattle.std.specs.Prelude.{◌≡◌};
ghost use Rattle.std.proofs.Common.{refl, ap, ◌∙◌, arith};
ghost use Rattle.pdh_edge.specs.Ports.{only_waiting, TakesWaiting};
ghost use Rattle.pdh_edge.specs.laws.WaitingLaws.{takes_none, takes_both, waits_long};

use crate::{Feed, FeedStop};
use pdh_packed::Packed;

/// Gives of a feed's lists the bits that come before the first call that may fail, and no others.
#[derive(Drop)]
pub struct Waiting<'a, F: Feed> {
    feed: &'a mut F,
}

impl<'a, F: Feed> Waiting<'a, F> {
    /// What waits in this feed, which it takes from there.
    pub fn of(feed: &'a mut F) -> Waiting<'a, F>
        ensures same { result.feed.ghost_name ≡ feed.entry.ghost_name }
        ensures feed { result.feed.now ≡ feed.old }
    {
        Waiting { feed }
    }
}

impl<'a, F: Feed> Feed for Waiting<'a, F> {
    ghost inputs = { λ w. only_waiting (F.inputs w.feed.now) (F.waits w.feed.now) };

    ghost feed_faults = { λ w. 0 };

    ghost waits = { λ w. F.waits w.feed.now };

    ghost fed = { λ a b. (b.feed.ghost_name ≡ a.feed.ghost_name) × F.fed a.feed.now b.feed.now
        × (F.feed_faults b.feed.now ≡ F.feed_faults a.feed.now)
        × TakesWaiting (F.inputs a.feed.now) (F.inputs b.feed.now) (F.waits a.feed.now) (F.waits b.feed.now) };

    ghost unread = { λ w k. ⊥ };

    ghost fed_same = { λ a. (refl, F.fed_same a.feed.now, refl, takes_none (F.inputs a.feed.now) (F.waits a.feed.now)) };

    ghost fed_join = { λ a b c p q. (q.0 ∙ p.0, F.fed_join a.feed.now b.feed.now c.feed.now p.1 q.1, q.2 ∙ p.2, takes_both p.3 q.3) };

    ghost fed_holds = { λ a b p. F.fed_holds a.feed.now b.feed.now p.1 };

    ghost fed_counts = { λ a b p. Prim.omega arith };

    ghost left_told = { λ a k bits h. waits_long (F.inputs a.feed.now) (F.waits a.feed.now) k bits (F.left_told a.feed.now k) (F.waits_left a.feed.now k) h };

    ghost waits_left = { λ a k. Prim.omega arith };

    fn feed_faults(&self) -> u64 {
        0
    }

    fn bit(&mut self, leaf: u32) -> Result<bool, FeedStop> {
        if self.feed.waiting(leaf) == 0 {
            return Err(FeedStop::Ended);
        }
        self.feed.bit(leaf)
    }

    #[inline(always)]
    fn bits(&mut self, leaf: u32, most: usize, into: &mut Packed) -> Result<usize, FeedStop> {
        if self.feed.waiting(leaf) == 0 {
            return Err(FeedStop::Ended);
        }
        self.feed.bits(leaf, most, into)
    }

    fn left(&self, leaf: u32) -> u64 {
        self.feed.waiting(leaf)
    }

    fn waiting(&self, leaf: u32) -> u64 {
        self.feed.waiting(leaf)
    }
}
