//! The port over a feed that receivers get whose bits nobody wants.

ghost use Rattle.std.specs.Prelude.{◌≡◌, ◌^◌, true};
ghost use Rattle.std.proofs.Common.{refl, sym, ◌∙◌, arith, ap, subst};
ghost use Rattle.pdh_edge.specs.Ports.{all_lists};

use pdh_edge::{Drain, Failed, Feed, FeedStop, Port};
use pdh_packed::Packed;

/// A port that gives what a feed gives, and lets go of every bit that is put, so that no put fails. It takes no memory.
#[derive(Drop)]
pub struct LinePort<F: Feed> {
    feed: F,
    fresh: bool,
    ready: bool,
}

impl<F: Feed> LinePort<F> {
    /// A fresh port that gives what this feed gives.
    pub fn new(feed: F) -> LinePort<F>
        ensures inputs { ⟦<LinePort<F> as Feed>⟧.inputs result ≡ F.inputs feed }
        ensures outputs { ⟦<LinePort<F> as Drain>⟧.outputs result ≡ all_lists }
        ensures fresh { ⟦<LinePort<F> as Port>⟧.fresh result }
        ensures feed { result.feed ≡ feed }
    {
        LinePort {
            feed,
            fresh: true,
            ready: false,
        }
    }

    /// The feed.
    pub fn into_feed(self) -> F
        ensures { result ≡ self.feed }
    {
        let LinePort {
            feed,
            fresh: _,
            ready: _,
        } = self;
        feed
    }
}

impl<F: Feed> Feed for LinePort<F> {
    ghost inputs = { λ p. F.inputs p.feed };

    ghost feed_faults = { λ p. F.feed_faults p.feed };

    ghost waits = { λ p. F.waits p.feed };

    ghost fed = { λ a b. F.fed a.feed b.feed × (b.ready ≡ a.ready) × (b.fresh ≡ a.fresh) };

    ghost unread = { λ p k. F.unread p.feed k };

    ghost fed_same = { λ a. (F.fed_same a.feed, refl, refl) };

    ghost fed_join = { λ a b c p q. (F.fed_join a.feed b.feed c.feed p.0 q.0, q.1 ∙ p.1, q.2 ∙ p.2) };

    ghost fed_holds = { λ a b p. F.fed_holds a.feed b.feed p.0 };

    ghost fed_counts = { λ a b p. F.fed_counts a.feed b.feed p.0 };

    ghost left_told = { λ a k bits h. F.left_told a.feed k bits h };

    ghost waits_left = { λ a k. F.waits_left a.feed k };

    fn feed_faults(&self) -> u64 {
        self.feed.feed_faults()
    }

    fn bit(&mut self, leaf: u32) -> Result<bool, FeedStop> {
        self.feed.bit(leaf)
    }

    fn bits(&mut self, leaf: u32, most: usize, into: &mut Packed) -> Result<usize, FeedStop> {
        self.feed.bits(leaf, most, into)
    }

    fn left(&self, leaf: u32) -> u64 {
        self.feed.left(leaf)
    }

    fn waiting(&self, leaf: u32) -> u64 {
        self.feed.waiting(leaf)
    }
}

impl<F: Feed> Drain for LinePort<F> {
    ghost outputs = { λ p. all_lists };

    ghost drain_faults = { λ p. 0 };

    ghost drained = { λ a b. (b.feed ≡ a.feed) × (b.ready ≡ a.ready) };

    ghost room = { λ p k. 2 ^ 64 };

    ghost drained_same = { λ a. (refl, refl) };

    ghost drained_join = { λ a b c p q. (q.0 ∙ p.0, q.1 ∙ p.1) };

    ghost drained_holds = { λ a b p. refl };

    ghost drained_counts = { λ a b p. Prim.omega arith };

    fn drain_faults(&self) -> u64 {
        0
    }

    fn put(&mut self, _leaf: u32, _bit: bool) -> Result<(), Failed> {
        self.fresh = false;
        Ok(())
    }

    fn put_all(&mut self, _leaf: u32, _bits: &Packed) -> Result<(), Failed> {
        self.fresh = false;
        Ok(())
    }

    fn is_deaf(&self) -> bool {
        true
    }

    fn has_room(&self, _leaf: u32, _bits: usize) -> bool {
        true
    }

    fn put_in_room(&mut self, _leaf: u32, _bits: &Packed) {
        self.fresh = false;
    }
}

impl<F: Feed> Port for LinePort<F> {
    ghost fresh = { λ p. p.fresh ≡ true };

    ghost ready = { λ p. p.ready ≡ true };

    ghost refused = { λ p. ⊥ };

    ghost kept = { λ a b. F.fed a.feed b.feed × (a.ready ≡ true → b.ready ≡ true) };

    ghost kept_same = { λ a. (F.fed_same a.feed, λ r. r) };

    ghost kept_join = { λ a b c p q. (F.fed_join a.feed b.feed c.feed p.0 q.0, λ r. q.1 (p.1 r)) };

    ghost kept_ready = { λ a b p. p.1 };

    ghost kept_counts = { λ a b p. (F.fed_counts a.feed b.feed p.0, Prim.omega arith) };

    ghost kept_holds = { λ a b p. (F.fed_holds a.feed b.feed p.0, refl) };

    ghost fed_is_kept = { λ a b p. (p.0, λ r. p.1 ∙ r) };

    ghost drained_is_kept = { λ a b p. (subst (F.fed a.feed) (sym p.0) (F.fed_same a.feed), λ r. p.1 ∙ r) };

    ghost fed_fresh = { λ a b p r. p.2 ∙ r };

    ghost fed_keeps_outputs = { λ a b p. (refl, refl) };

    ghost drained_keeps_inputs = { λ a b p. (ap F.inputs p.0, ap F.feed_faults p.0) };

    ghost drained_keeps_waiting = { λ a b p k. ap (λ feed. F.waits feed k) p.0 };

    fn start(&mut self) -> Result<(), Failed> {
        self.fresh = false;
        self.ready = true;
        Ok(())
    }
}
