//! Many frames of a multiplexer with stores at once: its children make all bits that arrive in them first, and then the frames are
//! made from these, one after another.

ghost use Rattle.std.specs.Prelude.{◌≡◌, ◌+◌, ◌*◌, ◌<◌, ◌≤◌, ◌==◌, ℕ, map, length, All, IfOk, OnOk, OnErr, if◌then◌else◌};
ghost use Rattle.pdh_shape.specs.OwnNumbers.{lead, store_size};
ghost use Rattle.pdh_tx.specs.Meaning.{plan_in, plan_of, IsNodeOf};
ghost use Rattle.pdh_tx.specs.Calls.{DrawsClear, IsPieceOf};
ghost use Rattle.pdh_tx.specs.Telling.{TellsNone};
ghost use Rattle.pdh_tx.specs.Tributary.{child_in, store_in, share_in};
ghost use Rattle.pdh_tx.specs.Node.{node_frame};
ghost use Rattle.pdh_tx.specs.Tributaries.{meanings, AreFed, HaveDecided};
ghost use Rattle.pdh_tx.specs.Quiet.{AreNext};
ghost use Rattle.pdh_tx.specs.Batches.{batch};
ghost use Rattle.pdh_tx.specs.Gathered.{AreFew, HaveGathered, CanGather, GatherOne, GatherAll, FailGathering, HaveGatheredFor, DecideFrom, CanCarry, Carry, KeepOthers, IsLeftOver, HasLeft};

use crate::Tx;
use crate::pieces::{Piece, arriving};
use crate::queue::Queue;
use crate::quiet::NextBits;
use crate::tributaries::Tributaries;
use pdh_clock::Schedule;
use pdh_edge::{Failed, Feed};
use pdh_shape::{LEAD, Path, STORE_SIZE, Shape};
use pdh_slips::SlipLog;
use std::alloc::{AllocError, Global};

/// Of how many frames bits are made at once, at most.
pub const BATCH: usize = 16;

/// A queue for each of so many tributaries, with room for the bits that come in so many frames; or no memory for them.
pub fn open_queues<S: Shape>(alloc: Global) -> Result<Vec<Queue>, AllocError>
    ensures count { IfOk result (λ queues. length queues.items ≡ S.TRIBS) }
    ensures room { IfOk result (λ queues.
        All (λ queue. batch * S.LEN + lead + store_size ≤ queue.bits.capacity) queues.items) }
{
    let room = BATCH * S::LEN as usize + LEAD as usize + STORE_SIZE;
    let mut queues = Vec::with_capacity(alloc, usize::from(S::TRIBS))?;
    for _trib in 0..S::TRIBS {
        queues.push(Queue::open(alloc, room)?)?;
    }
    Ok(queues)
}

// How many bits come into a store at once, where a line has so many: the lead, before the first of them.
fn at_once(made: u128) -> usize
    ensures { result ≡ (if made == 0 then lead else 0) }
{
    if made == 0 {
        return LEAD as usize;
    }
    0
}

impl<S: Shape, C: Tx> Tributaries<S, C> {
    // A tributary takes all bits of its child that arrive in the next slots.
    fn gather_one<F: Feed, G: SlipLog>(
        &mut self,
        trib: u8,
        next: NextBits,
        clock: &Schedule,
        feed: &mut F,
        log: &mut G,
    ) -> Result<(), Failed>
        requires trib { trib < S.TRIBS }
        requires next { AreNext S.shape clock.now next }
        requires few { AreFew S.LEN next }
        requires fed { AreFed self.old next.path clock.now (F.inputs feed.old) }
        requires placed { HaveGathered self.old (plan_in clock.now G.takes) next trib }
        requires clear { CanGather self.old (plan_in clock.now G.takes) next (F.inputs feed.old) trib }
        ensures ok { OnOk result (GatherOne self.old self.new (plan_in clock.now G.takes) next trib (F.inputs feed.old) (F.inputs feed.new)) }
        ensures halts { OnErr result (FailGathering self.old (plan_in clock.now G.takes) next trib (F.inputs feed.old) (F.inputs feed.new)) }
        ensures told { TellsNone G.SlipLog log.old log.new }
        ensures fed { DrawsClear F.Feed feed.old feed.new result }
        ensures same { meanings self.new ≡ meanings self.old }
        ensures shares { map share_in self.new.list.items ≡ map share_in self.old.list.items }
    {
        let led = at_once(next.made);
        let count = clock.arriving(&next.path, trib, next.made, next.end) as usize;
        self.list[trib as usize].gather(
            count,
            led,
            clock,
            feed,
            log,
            &mut self.queues[trib as usize],
        )
    }

    /// Each tributary takes all bits of its child that arrive in the next slots.
    pub fn gather_all<F: Feed, G: SlipLog>(
        &mut self,
        next: NextBits,
        clock: &Schedule,
        feed: &mut F,
        log: &mut G,
    ) -> Result<(), Failed>
        requires next { AreNext S.shape clock.now next }
        requires few { AreFew S.LEN next }
        requires fed { AreFed self.old next.path clock.now (F.inputs feed.old) }
        requires placed { HaveGathered self.old (plan_in clock.now G.takes) next 0 }
        requires clear { (j : ℕ) → CanGather self.old (plan_in clock.now G.takes) next (F.inputs feed.old) j }
        ensures ok { OnOk result (GatherAll self.old self.new (plan_in clock.now G.takes) next S.TRIBS (F.inputs feed.old) (F.inputs feed.new)) }
        ensures halts { OnErr result (FailGathering self.old (plan_in clock.now G.takes) next 0 (F.inputs feed.old) (F.inputs feed.new)) }
        ensures told { TellsNone G.SlipLog log.old log.new }
        ensures fed { DrawsClear F.Feed feed.old feed.new result }
        ensures same { meanings self.new ≡ meanings self.old }
        ensures shares { map share_in self.new.list.items ≡ map share_in self.old.list.items }
    {
        for trib in 0..S::TRIBS {
            self.gather_one(trib, next, clock, feed, log)?;
        }
        Ok(())
    }

    /// What is left of each queue goes back into its store.
    pub fn scatter_all(&mut self)
        requires left { (j : ℕ) → IsLeftOver self.old j }
        ensures child { map child_in self.new.list.items ≡ map child_in self.old.list.items }
        ensures shares { map share_in self.new.list.items ≡ map share_in self.old.list.items }
        ensures store { (j : ℕ) → HasLeft self.new j }
        ensures queues { self.new.queues ≡ self.old.queues }
    {
        for trib in 0..S::TRIBS {
            self.list[trib as usize].scatter(&self.queues[trib as usize]);
        }
    }

    // Makes the decisions of a frame that begins, by what the stores hold by then.
    fn decide_gathered(&mut self, path: Path, frame: u64, clock: &Schedule)
        requires node { IsNodeOf clock.now.levels (node_frame S.shape path) }
        requires scheduled { frame < (plan_of clock.now).frames path }
        ensures child { map child_in self.new.list.items ≡ map child_in self.old.list.items }
        ensures store { map store_in self.new.list.items ≡ map store_in self.old.list.items }
        ensures queues { self.new.queues ≡ self.old.queues }
        ensures decided { (j : ℕ) → DecideFrom self.new path (plan_of clock.now) frame j }
    {
        let arriving = clock.counts(&path, frame);
        for trib in 0..S::TRIBS {
            let fill = self.queues[trib as usize].fill;
            self.list[trib as usize].decide_by(arriving[trib as usize], fill);
        }
    }

    /// Makes the decisions of a frame, where a piece of it is its first.
    pub fn begin_gathered<G: SlipLog>(&mut self, at: Piece, clock: &Schedule)
        requires node { IsNodeOf clock.now.levels (node_frame S.shape at.path) }
        requires piece { IsPieceOf S.LEN at.slot at.len }
        requires placed { HaveGatheredFor self.old (plan_in clock.now G.takes) at }
        ensures child { map child_in self.new.list.items ≡ map child_in self.old.list.items }
        ensures store { map store_in self.new.list.items ≡ map store_in self.old.list.items }
        ensures queues { self.new.queues ≡ self.old.queues }
        ensures decided { HaveDecided self.new at.path (plan_in clock.now G.takes) at.frame }
    {
        if at.slot > 0 {
            return;
        }
        self.decide_gathered(at.path, at.frame, clock);
    }

    // Puts the bits of a tributary that a piece of a frame carries into their column.
    fn carry_one(&mut self, trib: u8, at: Piece)
        requires trib { trib < S.TRIBS }
        requires inside { at.slot + at.len ≤ S.LEN }
        requires can { CanCarry self.old at trib }
        ensures list { self.new.list ≡ self.old.list }
        ensures overhead { self.new.scratch.overhead ≡ self.old.scratch.overhead }
        ensures carried { Carry self.old self.new at trib }
        ensures others { KeepOthers self.old self.new trib }
    {
        let share = self.list[trib as usize].share;
        let arriving = arriving::<S>(share.arriving, at.slot, at.len);
        self.queues[trib as usize].pass(
            trib,
            share.more,
            arriving,
            &self.layout,
            at.slot,
            at.len,
            &mut self.scratch.columns[trib as usize],
        );
    }

    /// Puts the bits of all tributaries that a piece of a frame carries into their columns.
    pub fn carry_all(&mut self, at: Piece)
        requires inside { at.slot + at.len ≤ S.LEN }
        requires can { (j : ℕ) → CanCarry self.old at j }
        ensures list { self.new.list ≡ self.old.list }
        ensures overhead { self.new.scratch.overhead ≡ self.old.scratch.overhead }
        ensures carried { (j : ℕ) → Carry self.old self.new at j }
    {
        for trib in 0..S::TRIBS {
            self.carry_one(trib, at);
        }
    }
}
