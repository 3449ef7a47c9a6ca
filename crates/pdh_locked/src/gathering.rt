//! Many frames of a multiplexer without stores at once: its children make all bits that the frames read first, and then the frames
//! are made from these, one after another.

ghost use Rattle.std.specs.Prelude.{◌≡◌, ◌+◌, ◌*◌, ◌<◌, ◌≤◌, ℕ, map, length, OnOk, OnErr};
ghost use Rattle.pdh_tx.specs.Batches.{batch};
ghost use Rattle.pdh_tx.specs.Calls.{DrawsClear, IsFed};
ghost use Rattle.pdh_tx.specs.Meaning.{plan_in};
ghost use Rattle.pdh_tx.specs.Telling.{TellsNone};
ghost use Rattle.pdh_locked.specs.Children.{FillsFreely, HaltsFilling, AreFed, meanings};
ghost use Rattle.pdh_locked.specs.Gathered.{GathersAll, AreNextSlots, HaveGathered, CanGather, GatherOne, GatherAll, FailGathering, CanCarry, Carry, KeepOthers};

use crate::children::Children;
use pdh_clock::Schedule;
use pdh_edge::{Failed, Feed};
use pdh_shape::Shape;
use pdh_slips::SlipLog;
use pdh_tx::{Piece, Queue, Tx};

/// The slots from a slot of a frame on, up to one of a later frame.
#[derive(Clone, Copy, Debug, PartialEq, Eq)]
pub struct NextSlots {
    /// The first frame, from 0.
    pub frame: u64,
    /// The first slot, from 0.
    pub slot: u32,
    /// How many frames later the slot behind the last one is.
    pub frames: usize,
    /// That slot.
    pub end: u32,
}

// Takes the next bits of a child, so many, into a queue. Nothing stands in the way.
fn gather<C: Tx, F: Feed, G: SlipLog>(
    child: &mut C,
    count: usize,
    clock: &Schedule,
    feed: &mut F,
    log: &mut G,
    queue: &mut Queue,
) -> Result<(), Failed>
    requires fed { IsFed (C.meaning child.old) clock.now (F.inputs feed.old) }
    requires room { count ≤ queue.old.bits.capacity }
    requires clear { FillsFreely C.Tx child.old (plan_in clock.now G.takes) count (F.inputs feed.old) }
    ensures ok { OnOk result (GathersAll C.Tx child.old child.new queue.new (plan_in clock.now G.takes) count
        (F.inputs feed.old) (F.inputs feed.new)) }
    ensures halts { OnErr result (HaltsFilling C.Tx child.old (plan_in clock.now G.takes) count
        (F.inputs feed.old) (F.inputs feed.new)) }
    ensures told { TellsNone G.SlipLog log.old log.new }
    ensures fed { DrawsClear F.Feed feed.old feed.new result }
    ensures same { C.meaning child.new ≡ C.meaning child.old }
    ensures room { queue.new.bits.capacity ≡ queue.old.bits.capacity }
{
    queue.bits.clear();
    queue.gone = 0;
    child.make_clear(clock, feed, log, count, &mut queue.bits)?;
    Ok(())
}

impl<S: Shape, C: Tx> Children<S, C> {
    // A child makes all bits that slots read of it.
    fn gather_one<F: Feed, G: SlipLog>(
        &mut self,
        trib: u8,
        slots: NextSlots,
        clock: &Schedule,
        feed: &mut F,
        log: &mut G,
    ) -> Result<(), Failed>
        requires trib { trib < S.TRIBS }
        requires slots { AreNextSlots S.shape slots }
        requires fed { AreFed self.old clock.now (F.inputs feed.old) }
        requires placed { HaveGathered self.old (plan_in clock.now G.takes) slots trib }
        requires clear { CanGather self.old (plan_in clock.now G.takes) slots (F.inputs feed.old) trib }
        ensures ok { OnOk result (GatherOne self.old self.new (plan_in clock.now G.takes) slots trib
            (F.inputs feed.old) (F.inputs feed.new)) }
        ensures halts { OnErr result (FailGathering self.old (plan_in clock.now G.takes) slots trib
            (F.inputs feed.old) (F.inputs feed.new)) }
        ensures told { TellsNone G.SlipLog log.old log.new }
        ensures fed { DrawsClear F.Feed feed.old feed.new result }
        ensures same { meanings self.new ≡ meanings self.old }
    {
        let before = self.layout.carried(trib, false, 0, slots.slot as usize);
        let behind = self.layout.carried(trib, false, 0, slots.end as usize);
        let count = slots.frames * S::LOW as usize + behind - before;
        gather(
            &mut self.list[trib as usize],
            count,
            clock,
            feed,
            log,
            &mut self.queues[trib as usize],
        )
    }

    /// Each child makes all bits that slots read of it.
    pub fn gather_all<F: Feed, G: SlipLog>(
        &mut self,
        slots: NextSlots,
        clock: &Schedule,
        feed: &mut F,
        log: &mut G,
    ) -> Result<(), Failed>
        requires slots { AreNextSlots S.shape slots }
        requires fed { AreFed self.old clock.now (F.inputs feed.old) }
        requires placed { HaveGathered self.old (plan_in clock.now G.takes) slots 0 }
        requires clear { (j : ℕ) → CanGather self.old (plan_in clock.now G.takes) slots (F.inputs feed.old) j }
        ensures ok { OnOk result (GatherAll self.old self.new (plan_in clock.now G.takes) slots S.TRIBS
            (F.inputs feed.old) (F.inputs feed.new)) }
        ensures halts { OnErr result (FailGathering self.old (plan_in clock.now G.takes) slots 0
            (F.inputs feed.old) (F.inputs feed.new)) }
        ensures told { TellsNone G.SlipLog log.old log.new }
        ensures fed { DrawsClear F.Feed feed.old feed.new result }
        ensures same { meanings self.new ≡ meanings self.old }
    {
        for trib in 0..S::TRIBS {
            self.gather_one(trib, slots, clock, feed, log)?;
        }
        Ok(())
    }

    // Puts the bits that a piece of a frame reads of a child into their column.
    fn carry_one(&mut self, trib: u8, at: Piece)
        requires trib { trib < S.TRIBS }
        requires inside { at.slot + at.len ≤ S.LEN }
        requires can { CanCarry self.old at trib }
        ensures list { self.new.list ≡ self.old.list }
        ensures overhead { self.new.scratch.overhead ≡ self.old.scratch.overhead }
        ensures carried { Carry self.old self.new at trib }
        ensures others { KeepOthers self.old self.new trib }
    {
        let queue = &mut self.queues[trib as usize];
        // the sum fits, since a length does
        let _fits = queue.bits.len();
        queue.gone += self.layout.fill_column_at(
            trib,
            false,
            at.slot,
            at.len,
            &queue.bits,
            queue.gone,
            &mut self.scratch.columns[trib as usize],
        );
    }

    /// Puts the bits that a piece of a frame reads of all children into their columns.
    pub fn carry_all(&mut self, at: Piece)
        requires inside { at.slot + at.len ≤ S.LEN }
        requires can { (j : ℕ) → CanCarry self.old at j }
        ensures list { self.new.list ≡ self.old.list }
        ensures overhead { self.new.scratch.overhead ≡ self.old.scratch.overhead }
        ensures carried { (j : ℕ) → Carry self.old self.new at j }
    {
        for trib in 0..S::TRIBS {
            self.carry_one(trib, at);
        }
    }
}
