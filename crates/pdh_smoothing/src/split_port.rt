//! A port some of whose lists are another's.

ghost use Rattle.std.specs.Prelude.{◌≡◌, ◌<◌, ◌^◌};
ghost use Rattle.std.proofs.Common.{refl, ◌∙◌, sym, ap, subst, arith};
ghost use Rattle.pdh_smoothing.specs.Split.{split_outputs, both_faults};
ghost use Rattle.pdh_smoothing.specs.laws.SplitLaws.{split_same, outputs_same};

use pdh_edge::{Drain, Failed, Feed, FeedStop, Port};
use pdh_packed::Packed;

/// A port that gives what another gives, and puts to its lists the bits for those below a number; the bits for the lists from that
/// number on it puts to those of a second port. It takes no memory.
#[derive(Drop)]
pub struct SplitPort<P: Port, K: Port> {
    pub port: P,
    pub kept: K,
    // the number of the second port's first list
    from: u32,
}

impl<P: Port, K: Port> SplitPort<P, K> {
    /// The lists of this port, and from a number on those of another.
    pub fn new(port: P, kept: K, from: u32) -> SplitPort<P, K>
        ensures port { result.port ≡ port }
        ensures kept { result.kept ≡ kept }
        ensures from { result.from ≡ from }
        ensures counted { P.drain_faults port < 2 ^ 64 }
    {
        // the count fits its type
        let _counted = port.drain_faults();
        SplitPort { port, kept, from }
    }

    /// The port.
    pub fn into_port(self) -> P
        ensures port { result ≡ self.port }
        ensures counted { P.drain_faults self.port < 2 ^ 64 }
    {
        let SplitPort {
            port,
            kept: _,
            from: _,
        } = self;
        let _counted = port.drain_faults();
        port
    }
}

impl<P: Port, K: Port> Feed for SplitPort<P, K> {
    ghost inputs = { λ p. P.inputs p.port };

    ghost feed_faults = { λ p. P.feed_faults p.port };

    ghost waits = { λ p. P.waits p.port };

    ghost fed = { λ a b. P.fed a.port b.port × (b.kept ≡ a.kept) × (b.from ≡ a.from) };

    ghost unread = { λ p k. P.unread p.port k };

    ghost fed_same = { λ a. (P.fed_same a.port, refl, refl) };

    ghost fed_join = { λ a b c p q. (P.fed_join a.port b.port c.port p.0 q.0, q.1 ∙ p.1, q.2 ∙ p.2) };

    ghost fed_holds = { λ a b p. P.fed_holds a.port b.port p.0 };

    ghost fed_counts = { λ a b p. P.fed_counts a.port b.port p.0 };

    ghost left_told = { λ a k bits h. P.left_told a.port k bits h };

    ghost waits_left = { λ a k. P.waits_left a.port k };

    fn feed_faults(&self) -> u64 {
        self.port.feed_faults()
    }

    fn bit(&mut self, leaf: u32) -> Result<bool, FeedStop> {
        self.port.bit(leaf)
    }

    fn bits(&mut self, leaf: u32, most: usize, into: &mut Packed) -> Result<usize, FeedStop> {
        self.port.bits(leaf, most, into)
    }

    fn left(&self, leaf: u32) -> u64 {
        self.port.left(leaf)
    }

    fn waiting(&self, leaf: u32) -> u64 {
        self.port.waiting(leaf)
    }
}

impl<P: Port, K: Port> Drain for SplitPort<P, K> {
    ghost outputs = { λ p. split_outputs p.from (P.outputs p.port) (K.outputs p.kept) };

    ghost drain_faults = { λ p. both_faults (P.drain_faults p.port) (K.drain_faults p.kept) };

    ghost drained = { λ a b. P.drained a.port b.port × K.drained a.kept b.kept × (b.from ≡ a.from) };

    // no room is told
    ghost room = { λ p k. 0 };

    ghost drained_same = { λ a. (P.drained_same a.port, K.drained_same a.kept, refl) };

    ghost drained_join = { λ a b c p q. (
      P.drained_join a.port b.port c.port p.0 q.0,
      K.drained_join a.kept b.kept c.kept p.1 q.1,
      q.2 ∙ p.2,
    ) };

    ghost drained_holds = { λ a b p. split_same a.from b.from (P.outputs a.port).holds (P.outputs b.port).holds
        (K.outputs a.kept).holds (K.outputs b.kept).holds p.2
        (P.drained_holds a.port b.port p.0) (K.drained_holds a.kept b.kept p.1) };

    ghost drained_counts = { λ a b p. Prim.omega (
      arith,
      P.drained_counts a.port b.port p.0,
      K.drained_counts a.kept b.kept p.1,
    ) };

    fn drain_faults(&self) -> u64 {
        self.port
            .drain_faults()
            .saturating_add(self.kept.drain_faults())
    }

    fn put(&mut self, leaf: u32, bit: bool) -> Result<(), Failed> {
        if leaf < self.from {
            return self.port.put(leaf, bit);
        }
        self.kept.put(leaf - self.from, bit)
    }

    fn put_all(&mut self, leaf: u32, bits: &Packed) -> Result<(), Failed> {
        if leaf < self.from {
            return self.port.put_all(leaf, bits);
        }
        self.kept.put_all(leaf - self.from, bits)
    }

    fn is_deaf(&self) -> bool {
        false
    }

    fn has_room(&self, _leaf: u32, _bits: usize) -> bool {
        false
    }

    fn put_in_room(&mut self, _leaf: u32, _bits: &Packed) {}
}

impl<P: Port, K: Port> Port for SplitPort<P, K> {
    ghost fresh = { λ p. P.fresh p.port };

    ghost ready = { λ p. P.ready p.port };

    ghost refused = { λ p. P.refused p.port };

    ghost kept = { λ a b. P.kept a.port b.port × K.kept a.kept b.kept × (b.from ≡ a.from) };

    ghost kept_same = { λ a. (P.kept_same a.port, K.kept_same a.kept, refl) };

    ghost kept_join = { λ a b c p q. (
      P.kept_join a.port b.port c.port p.0 q.0,
      K.kept_join a.kept b.kept c.kept p.1 q.1,
      q.2 ∙ p.2,
    ) };

    ghost kept_ready = { λ a b p. P.kept_ready a.port b.port p.0 };

    ghost kept_counts = { λ a b p. (
      (P.kept_counts a.port b.port p.0).0,
      Prim.omega (arith, (P.kept_counts a.port b.port p.0).1, (K.kept_counts a.kept b.kept p.1).1),
    ) };

    ghost kept_holds = { λ a b p. (
      (P.kept_holds a.port b.port p.0).0,
      split_same a.from b.from (P.outputs a.port).holds (P.outputs b.port).holds
          (K.outputs a.kept).holds (K.outputs b.kept).holds p.2
          (P.kept_holds a.port b.port p.0).1 (K.kept_holds a.kept b.kept p.1).1,
    ) };

    ghost fed_is_kept = { λ a b p. (
      P.fed_is_kept a.port b.port p.0,
      subst (K.kept a.kept) (sym p.1) (K.kept_same a.kept),
      p.2,
    ) };

    ghost drained_is_kept = { λ a b p. (
      P.drained_is_kept a.port b.port p.0,
      K.drained_is_kept a.kept b.kept p.1,
      p.2,
    ) };

    ghost fed_fresh = { λ a b p r. P.fed_fresh a.port b.port p.0 r };

    ghost fed_keeps_outputs = { λ a b p. (
      outputs_same a.from b.from (P.outputs a.port) (P.outputs b.port)
          (K.outputs a.kept) (K.outputs b.kept) p.2
          (P.fed_keeps_outputs a.port b.port p.0).0 (ap K.outputs p.1),
      ap (λ n. both_faults n (K.drain_faults b.kept)) (P.fed_keeps_outputs a.port b.port p.0).1
          ∙ ap (λ k. both_faults (P.drain_faults a.port) (K.drain_faults k)) p.1,
    ) };

    ghost drained_keeps_inputs = { λ a b p. P.drained_keeps_inputs a.port b.port p.0 };

    ghost drained_keeps_waiting = { λ a b p k. P.drained_keeps_waiting a.port b.port p.0 k };

    fn start(&mut self) -> Result<(), Failed> {
        self.port.start()
    }
}
