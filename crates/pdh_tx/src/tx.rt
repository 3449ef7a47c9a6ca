//! Senders as a trait: what leaves and multiplexers have in common.

ghost use Rattle.std.specs.Prelude.{◌≡◌, ◌≤◌, ◌+◌, ℕ, suc, Bool, false, is_err, length, IfOk, OnOk, IfErr, OnErr};
ghost use Rattle.pdh_packed.specs.Gaining.{gained};
ghost use Rattle.pdh_shape.specs.declared.role.Service.{Service};
ghost use Rattle.pdh_tx.specs.Meaning.{Supply, Plan, plan_in, Meaning, StaysFree};
ghost use Rattle.pdh_tx.specs.Calls.{Draws, DrawsClear, Appends, IsFed, IsKept, StandsBy, StandsClear, GoesFree, MakesNext, StopsNext, TellsNext, MakesNextAll, HaltsNext};
ghost use Rattle.pdh_tx.specs.Telling.{TellsNone};

use pdh_clock::Schedule;
use pdh_edge::{Failed, Feed};
use pdh_packed::Packed;
use pdh_shape::{Path, Place};
use pdh_slips::SlipLog;

/// Why a line has no next bit.
#[derive(Clone, Copy, Debug, PartialEq, Eq)]
pub enum TxStop {
    /// A bit arrives at a full store.
    Overflow(Place),
    /// A bit is read of an empty store.
    Underflow(Place),
    /// The schedule has no more frames of a node.
    NoFrame { node: Path },
    /// The feed failed.
    Failed,
    /// A leaf's list is used up.
    Ended { leaf: u32 },
    /// The log couldn't be told of a slip.
    LogFailed,
}

/// Makes a line, bit by bit. A bit's steps come in this order: in slot 0 of a frame it is judged
/// whether the frame is scheduled; in slot 0 of frame 0 the tributaries in order take their leads; in
/// slot 0 the frame's decisions are made; each tributary in order takes the bit that arrives in the
/// slot, if there is one; and the slot's bit is made, with a read of a store where it carries a
/// tributary's bit. A multiplexer without stores has no leads, decisions and arrivals: a slot that
/// reads a tributary takes its next bit at once. Where a tributary is a multiplexer, taking its next
/// bit makes that bit with all its steps.
pub trait Tx: Drop {
    /// The state has made so many bits by this schedule.
    ghost stands_at: { Self → Plan → ℕ → Type 0 };

    /// What the state holds after so many bits is what this schedule, these lists and these service
    /// bits give. What the lists have past the bits that were taken, and what is said past the frames
    /// that were begun, doesn't matter.
    ghost stands_for: { Self → Supply → ℕ → Type 0 };

    /// Its line, and what making it takes and meets.
    ghost meaning: { Self → Meaning };

    /// What the service bits of the next frame that it begins say.
    ghost says: { Self → Service };

    /// A call of `next` has met an error.
    ghost is_stopped: { Self → Bool };

    /// Whether a call of `next` has met an error, so that no more may be made.
    fn stopped(&self) -> bool
        ensures { result ≡ is_stopped self.now };

    /// Makes the next bit of the line, or answers what stands first in the way of it: Failed only
    /// where the feed's count of faults rose, LogFailed only where the log's did, and any other stop
    /// exactly where it is the first. The log is told of each slip in its place in the order of steps.
    fn next<F: Feed, G: SlipLog>(
        &mut self,
        clock: &Schedule,
        feed: &mut F,
        log: &mut G,
    ) -> Result<bool, TxStop>
        requires running { is_stopped self.old ≡ false }
        requires fed { IsFed (meaning self.old) clock.now (F.inputs feed.old) }
        requires stands { StandsBy stands_at self.old (plan_in clock.now G.takes) }
        ensures made { IfOk result (λ bit. MakesNext meaning says stands_at stands_for self.old self.new (plan_in clock.now G.takes) bit
            (F.inputs feed.old) (F.inputs feed.new)) }
        ensures stops { IfErr result (λ stop. StopsNext meaning stands_at self.old (plan_in clock.now G.takes) stop
            (F.inputs feed.old) (F.inputs feed.new) (F.feed_faults feed.old) (F.feed_faults feed.new)) }
        ensures told { TellsNext meaning stands_at self.old (plan_in clock.now G.takes) G.SlipLog log.old log.new result }
        ensures stopped { is_stopped self.new ≡ is_err result }
        ensures fed { Draws F.Feed feed.old feed.new result }
        ensures kept { IsKept meaning says self.old self.new };

    /// How many next bits of the line, up to so many, surely meet nothing: no event of a store, its own or one below, and no
    /// end of a node's frames or of a leaf's list. So they bring no slip where logs of type `G` take slips. More bits may meet
    /// nothing than it answers.
    fn quiet<F: Feed, G: SlipLog>(&self, clock: &Schedule, feed: &F, most: usize) -> usize
        requires fed { IsFed (meaning self.now) clock.now (F.inputs feed.now) }
        requires stands { StandsBy stands_at self.now (plan_in clock.now G.takes) }
        ensures most { result ≤ most }
        ensures free { GoesFree meaning stands_at self.now (plan_in clock.now G.takes) result (F.inputs feed.now) };

    /// Makes the next bits of the line, so many, in whose way nothing stands and which bring no slip, and
    /// appends them to `into`; it fails only where the feed's count of faults rose, and the leaves gave no
    /// more than these bits take. Each frame that they begin says the same. The log is told of nothing.
    fn make_clear<F: Feed, G: SlipLog>(
        &mut self,
        clock: &Schedule,
        feed: &mut F,
        log: &mut G,
        count: usize,
        into: &mut Packed,
    ) -> Result<(), Failed>
        requires running { is_stopped self.old ≡ false }
        requires fed { IsFed (meaning self.old) clock.now (F.inputs feed.old) }
        requires room { length into.old.bits + count ≤ into.old.capacity }
        requires clear { StandsClear meaning stands_at self.old (plan_in clock.now G.takes) count (F.inputs feed.old) }
        ensures appended { Appends into.old into.new count result }
        ensures made { OnOk result (MakesNextAll meaning says stands_at stands_for self.old self.new (plan_in clock.now G.takes) count
            (gained into.old into.new) (F.inputs feed.old) (F.inputs feed.new)) }
        ensures halts { OnErr result (HaltsNext meaning stands_at self.old (plan_in clock.now G.takes) count
            (F.inputs feed.old) (F.inputs feed.new)) }
        ensures told { TellsNone G.SlipLog log.old log.new }
        ensures stopped { is_stopped self.new ≡ is_err result }
        ensures fed { DrawsClear F.Feed feed.old feed.new result }
        ensures kept { IsKept meaning says self.old self.new };

    /// A longer line takes no fewer bits.
    ghost grows: { (t : Self) (plan : Plan) (x k : ℕ)
        → (meaning t).given plan x k ≤ (meaning t).given plan (suc x) k };

    /// Longer lists bring nothing into its way.
    ghost longer: { (t : Self) → StaysFree (meaning t) };
}
