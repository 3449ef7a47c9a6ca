//! Lists of bits as traits: a feed gives them, a drain takes them, and a port does both.

ghost use Rattle.std.specs.Prelude.{◌≡◌, ◌≤◌, ◌<◌, ◌+◌, ◌-◌, ◌^◌, ℕ, Bool, true, List, length, min, Some, IsTrue, IfOk, IsOk, OnOk, OnErr, IsErrOf};
ghost use Rattle.pdh_packed.specs.Gaining.{gained, IsGrown};
ghost use Rattle.pdh_edge.specs.declared.port.FeedStop.TheVariants.{Ended, Failed as FeedFailed};
ghost use Rattle.pdh_edge.specs.Ports.{Inputs, Outputs, Takes, Puts, PutsPart, HasCause, HasFeedCause, all_lists, only, for_leaf, nothing, GivesWaiting};

use crate::Failed;
use pdh_packed::Packed;

/// Why a leaf gives no bit.
#[derive(Clone, Copy, Debug, PartialEq, Eq)]
pub enum FeedStop {
    /// The call failed, and the count of faults has risen.
    Failed,
    /// The leaf's list is used up.
    Ended,
}

/// Gives bits: a list of them for each of its leaves. How many bits each list still has is always
/// told; the bits are told where an implementation knows them. The count of faults never falls, and
/// stands at `u64::MAX` once there.
pub trait Feed: Drop {
    /// Which lists there are, how many bits each still has, and these bits where they are told.
    ghost inputs: { Self → Inputs };

    /// How many calls have failed.
    ghost feed_faults: { Self → ℕ };

    /// What calls that only take bits may change.
    ghost fed: { Self → Self → Type 0 };

    /// How many bits a leaf's list surely gives before the first call that may fail.
    ghost waits: { Self → ℕ → ℕ };

    /// A call for bits of this leaf's list has failed, and no call came since.
    ghost unread: { Self → ℕ → Type 0 };

    /// How many calls have failed.
    fn feed_faults(&self) -> u64
        ensures { result ≡ feed_faults self.now };

    /// Takes the next bit of a leaf's list and leaves the other lists. An error leaves all lists:
    /// Failed only where the count of faults rose, Ended only where the leaf's list is used up.
    fn bit(&mut self, leaf: u32) -> Result<bool, FeedStop>
        requires { IsTrue ((inputs self.old).holds leaf) }
        ensures ok { IfOk result (λ b. Takes (only leaf b) (inputs self.old) (inputs self.new)) }
        ensures err { OnErr result (Takes nothing (inputs self.old) (inputs self.new)) }
        ensures sure { 0 < waits self.old leaf → IsOk result }
        ensures waits { GivesWaiting leaf 1 (waits self.old) (waits self.new) }
        ensures cause { HasFeedCause (feed_faults self.old) (feed_faults self.new) result }
        ensures ended { IsErrOf result Ended → (inputs self.old).left leaf ≡ 0 }
        ensures unread { IsErrOf result FeedFailed → unread self.new leaf }
        ensures fed { fed self.old self.new };

    /// Takes next bits of a leaf's list, at least one and at most so many, appends them to `into`,
    /// answers how many, and leaves the other lists. An error is one of `bit`; it takes and appends
    /// nothing.
    fn bits(&mut self, leaf: u32, most: usize, into: &mut Packed) -> Result<usize, FeedStop>
        requires held { IsTrue ((inputs self.old).holds leaf) }
        requires some { 0 < most }
        requires room { length into.old.bits + most ≤ into.old.capacity }
        ensures count { IfOk result (λ count. (0 < count) × (count ≤ most)) }
        ensures grown { IfOk result (λ count. IsGrown into.old into.new count) }
        ensures ok { IfOk result (λ count. Takes (for_leaf leaf (gained into.old into.new))
            (inputs self.old) (inputs self.new)) }
        ensures err { OnErr result (Takes nothing (inputs self.old) (inputs self.new)) }
        ensures same { OnErr result (into.new ≡ into.old) }
        ensures sure { 0 < waits self.old leaf → IsOk result }
        ensures waits { GivesWaiting leaf (length (gained into.old into.new)) (waits self.old) (waits self.new) }
        ensures cause { HasFeedCause (feed_faults self.old) (feed_faults self.new) result }
        ensures ended { IsErrOf result Ended → (inputs self.old).left leaf ≡ 0 }
        ensures unread { IsErrOf result FeedFailed → unread self.new leaf }
        ensures fed { fed self.old self.new }
    {
        into.push(self.bit(leaf)?);
        Ok(1)
    }

    /// How many bits a leaf's list still has, or `u64::MAX` where it has more.
    fn left(&self, leaf: u32) -> u64
        requires { IsTrue ((inputs self.now).holds leaf) }
        ensures { result ≡ min ((inputs self.now).left leaf) (2 ^ 64 - 1) };

    /// How many bits a leaf's list surely gives before the first call that may fail, or `u64::MAX` where these are more.
    fn waiting(&self, leaf: u32) -> u64
        requires { IsTrue ((inputs self.now).holds leaf) }
        ensures { result ≡ min (waits self.now leaf) (2 ^ 64 - 1) };

    ghost fed_same: { (a : Self) → fed a a };

    ghost fed_join: { (a b c : Self) → fed a b → fed b c → fed a c };

    /// The leaves stay the same.
    ghost fed_holds: { (a b : Self) → fed a b → (inputs b).holds ≡ (inputs a).holds };

    /// The count never falls.
    ghost fed_counts: { (a b : Self) → fed a b → feed_faults a ≤ feed_faults b };

    /// A list that is told has as many bits as are left.
    ghost left_told: { (a : Self) (k : ℕ) (bits : List Bool)
        → (inputs a).told k ≡ Some bits → (inputs a).left k ≡ length bits };

    /// What waits is left.
    ghost waits_left: { (a : Self) (k : ℕ) → waits a k ≤ (inputs a).left k };
}

/// Takes bits: appends them to a list for each of its leaves. The bits are told where an
/// implementation knows them. The count of faults never falls, and stands at `u64::MAX` once there.
pub trait Drain: Drop {
    /// Which lists there are, and their bits where they are told.
    ghost outputs: { Self → Outputs };

    /// How many calls have failed.
    ghost drain_faults: { Self → ℕ };

    /// What calls that only put bits may change.
    ghost drained: { Self → Self → Type 0 };

    /// How many bits a leaf's list takes without a call that may fail.
    ghost room: { Self → ℕ → ℕ };

    /// How many calls have failed.
    fn drain_faults(&self) -> u64
        ensures { result ≡ drain_faults self.now };

    /// Appends a bit to a leaf's list and leaves the other lists. After a failure, at which the
    /// count of faults rose, each list is a prefix of what was put.
    fn put(&mut self, leaf: u32, bit: bool) -> Result<(), Failed>
        requires { IsTrue ((outputs self.old).holds leaf) }
        ensures ok { OnOk result (Puts (only leaf bit) (outputs self.old) (outputs self.new)) }
        ensures err { OnErr result
            (PutsPart (only leaf bit) (outputs self.old) (outputs self.new)) }
        ensures cause { HasCause (drain_faults self.old) (drain_faults self.new) result }
        ensures drained { drained self.old self.new };

    /// Appends bits to a leaf's list and leaves the other lists. After a failure, at which the count
    /// of faults rose, each list is a prefix of what was put.
    fn put_all(&mut self, leaf: u32, bits: &Packed) -> Result<(), Failed>
        requires { IsTrue ((outputs self.old).holds leaf) }
        ensures ok { OnOk result
            (Puts (for_leaf leaf bits.now.bits) (outputs self.old) (outputs self.new)) }
        ensures err { OnErr result
            (PutsPart (for_leaf leaf bits.now.bits) (outputs self.old) (outputs self.new)) }
        ensures cause { HasCause (drain_faults self.old) (drain_faults self.new) result }
        ensures drained { drained self.old self.new }
    {
        for place in 0..bits.len() {
            self.put(leaf, bits.get(place))?;
        }
        Ok(())
    }

    /// Whether it takes bits for any leaf and tells nothing of them, so that it may be spared them.
    fn is_deaf(&self) -> bool
        ensures { result ≡ true → outputs self.now ≡ all_lists };

    /// Whether a leaf's list takes so many bits without a call that may fail.
    fn has_room(&self, leaf: u32, bits: usize) -> bool
        requires { IsTrue ((outputs self.now).holds leaf) }
        ensures { result ≡ true → bits ≤ room self.now leaf };

    /// Appends bits to a leaf's list that has room for them, and leaves the other lists and their
    /// room. It never fails.
    fn put_in_room(&mut self, leaf: u32, bits: &Packed)
        requires held { IsTrue ((outputs self.old).holds leaf) }
        requires room { length bits.now.bits ≤ room self.old leaf }
        ensures put { Puts (for_leaf leaf bits.now.bits) (outputs self.old) (outputs self.new) }
        ensures others { (k : ℕ) → (k ≡ leaf → ⊥) → room self.new k ≡ room self.old k }
        ensures faults { drain_faults self.new ≡ drain_faults self.old }
        ensures drained { drained self.old self.new };

    ghost drained_same: { (a : Self) → drained a a };

    ghost drained_join: { (a b c : Self) → drained a b → drained b c → drained a c };

    /// The leaves stay the same.
    ghost drained_holds: { (a b : Self) → drained a b → (outputs b).holds ≡ (outputs a).holds };

    /// The count never falls.
    ghost drained_counts: { (a b : Self) → drained a b → drain_faults a ≤ drain_faults b };
}

/// Gives and takes bits. Its outputs are started once, before bits are put to them.
pub trait Port: Feed + Drain {
    /// Nothing has been started or put so far.
    ghost fresh: { Self → Type 0 };

    /// `start` has answered Ok.
    ghost ready: { Self → Type 0 };

    /// `start` has failed, and no call came since.
    ghost refused: { Self → Type 0 };

    /// What any calls may change.
    ghost kept: { Self → Self → Type 0 };

    /// Starts the outputs, and leaves all lists as they are. A failure raises the count of the
    /// outputs' faults.
    fn start(&mut self) -> Result<(), Failed>
        requires { fresh self.old }
        ensures ok { OnOk result (ready self.new) }
        ensures err { OnErr result (refused self.new) }
        ensures inputs { Self.inputs self.new ≡ Self.inputs self.old }
        ensures outputs { Self.outputs self.new ≡ Self.outputs self.old }
        ensures cause { HasCause (Self.drain_faults self.old) (Self.drain_faults self.new) result }
        ensures reads { Self.feed_faults self.new ≡ Self.feed_faults self.old }
        ensures kept { kept self.old self.new };

    ghost kept_same: { (a : Self) → kept a a };

    ghost kept_join: { (a b c : Self) → kept a b → kept b c → kept a c };

    /// What is ready stays so.
    ghost kept_ready: { (a b : Self) → kept a b → ready a → ready b };

    /// The counts never fall.
    ghost kept_counts: { (a b : Self) → kept a b → (Self.feed_faults a ≤ Self.feed_faults b)
        × (Self.drain_faults a ≤ Self.drain_faults b) };

    /// The leaves stay the same.
    ghost kept_holds: { (a b : Self) → kept a b
        → ((Self.inputs b).holds ≡ (Self.inputs a).holds) × ((Self.outputs b).holds ≡ (Self.outputs a).holds) };

    ghost fed_is_kept: { (a b : Self) → Self.fed a b → kept a b };

    ghost drained_is_kept: { (a b : Self) → Self.drained a b → kept a b };

    /// Taking bits starts and puts nothing.
    ghost fed_fresh: { (a b : Self) → Self.fed a b → fresh a → fresh b };

    /// Taking bits leaves the outputs, and putting bits leaves the inputs.
    ghost fed_keeps_outputs: { (a b : Self) → Self.fed a b → (Self.outputs b ≡ Self.outputs a)
        × (Self.drain_faults b ≡ Self.drain_faults a) };

    ghost drained_keeps_inputs: { (a b : Self) → Self.drained a b
        → (Self.inputs b ≡ Self.inputs a) × (Self.feed_faults b ≡ Self.feed_faults a) };

    /// Nor does putting bits change what waits.
    ghost drained_keeps_waiting: { (a b : Self) → Self.drained a b → (k : ℕ) → Self.waits b k ≡ Self.waits a k };
}
