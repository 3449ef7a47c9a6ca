//! Making the line of a multiplexer without stores a piece of a frame at a time, where nothing
//! stands in the way.

ghost use Rattle.std.specs.Prelude.{◌≡◌, ◌+◌, ◌<◌, ◌≤◌, ℕ, false, OnOk, OnErr};
ghost use Rattle.pdh_tx.specs.Calls.{DrawsClear, HasRoomFor, HasSameRoom, IsFed};
ghost use Rattle.pdh_tx.specs.Meaning.{plan_in};
ghost use Rattle.pdh_tx.specs.Passing.{carried_in};
ghost use Rattle.pdh_tx.specs.Telling.{TellsNone};
ghost use Rattle.pdh_locked.specs.Children.{FillsFreely, FillsOne, HaltsFilling, AreFed, HaveFilled, IsPassable, FillOne, FillAll, FailFrom, KeepAll, KeepFirst};

use crate::children::Children;
use pdh_clock::Schedule;
use pdh_edge::{Failed, Feed};
use pdh_packed::Packed;
use pdh_runs::Layout;
use pdh_shape::Shape;
use pdh_slips::SlipLog;
use pdh_tx::Tx;

// Takes the next bits of a child that a piece of a frame reads, of so many slots from `first` on, into
// its column. Nothing stands in the way.
fn fill<S: Shape, C: Tx, F: Feed, G: SlipLog>(
    child: &mut C,
    trib: u8,
    layout: &Layout<S>,
    first: u32,
    len: usize,
    clock: &Schedule,
    feed: &mut F,
    log: &mut G,
    queue: &mut Packed,
    column: &mut Packed,
) -> Result<(), Failed>
    requires fed { IsFed (C.meaning child.old) clock.now (F.inputs feed.old) }
    requires trib { trib < S.TRIBS }
    requires inside { first + len ≤ S.LEN }
    requires room { HasRoomFor (carried_in S.shape trib false first len) (S.LOW + 1) queue.old column.old }
    requires clear { FillsFreely C.Tx child.old (plan_in clock.now G.takes) (carried_in S.shape trib false first len) (F.inputs feed.old) }
    ensures ok { OnOk result (FillsOne C.Tx S.shape trib first len child.old child.new column.new.bits (plan_in clock.now G.takes)
        (F.inputs feed.old) (F.inputs feed.new)) }
    ensures halts { OnErr result (HaltsFilling C.Tx child.old (plan_in clock.now G.takes) (carried_in S.shape trib false first len)
        (F.inputs feed.old) (F.inputs feed.new)) }
    ensures told { TellsNone G.SlipLog log.old log.new }
    ensures fed { DrawsClear F.Feed feed.old feed.new result }
    ensures same { C.meaning child.new ≡ C.meaning child.old }
    ensures room { HasSameRoom queue.old queue.new column.old column.new }
{
    let carried = layout.carried(trib, false, first, len);
    queue.clear();
    child.make_clear(clock, feed, log, carried, queue)?;
    layout.fill_column(trib, false, first, len, queue, column);
    Ok(())
}

impl<S: Shape, C: Tx> Children<S, C> {
    // Takes the next bits of a child that a piece of a frame reads into its column.
    fn fill_one<F: Feed, G: SlipLog>(
        &mut self,
        trib: u8,
        frame: u64,
        slot: u32,
        len: usize,
        clock: &Schedule,
        feed: &mut F,
        log: &mut G,
    ) -> Result<(), Failed>
        requires trib { trib < S.TRIBS }
        requires inside { slot + len ≤ S.LEN }
        requires fed { AreFed self.old clock.now (F.inputs feed.old) }
        requires placed { HaveFilled self.old (plan_in clock.now G.takes) frame slot len trib }
        requires clear { IsPassable self.old (plan_in clock.now G.takes) frame slot len (F.inputs feed.old) trib }
        ensures ok { OnOk result (FillOne self.old self.new (plan_in clock.now G.takes) frame slot len trib
            (F.inputs feed.old) (F.inputs feed.new)) }
        ensures halts { OnErr result (FailFrom self.old (plan_in clock.now G.takes) frame slot len trib
            (F.inputs feed.old) (F.inputs feed.new)) }
        ensures told { TellsNone G.SlipLog log.old log.new }
        ensures fed { DrawsClear F.Feed feed.old feed.new result }
        ensures kept { KeepFirst self.old self.new trib }
    {
        fill::<S, C, F, G>(
            &mut self.list[trib as usize],
            trib,
            &self.layout,
            slot,
            len,
            clock,
            feed,
            log,
            &mut self.scratch.queue,
            &mut self.scratch.columns[trib as usize],
        )
    }

    /// Takes the next bits of all children that a piece of a frame reads into their columns. Nothing
    /// stands in the way.
    pub fn fill_all<F: Feed, G: SlipLog>(
        &mut self,
        frame: u64,
        slot: u32,
        len: usize,
        clock: &Schedule,
        feed: &mut F,
        log: &mut G,
    ) -> Result<(), Failed>
        requires inside { slot + len ≤ S.LEN }
        requires fed { AreFed self.old clock.now (F.inputs feed.old) }
        requires placed { HaveFilled self.old (plan_in clock.now G.takes) frame slot len 0 }
        requires clear { (j : ℕ) → IsPassable self.old (plan_in clock.now G.takes) frame slot len (F.inputs feed.old) j }
        ensures ok { OnOk result (FillAll self.old self.new (plan_in clock.now G.takes) frame slot len S.TRIBS
            (F.inputs feed.old) (F.inputs feed.new)) }
        ensures halts { OnErr result (FailFrom self.old (plan_in clock.now G.takes) frame slot len 0
            (F.inputs feed.old) (F.inputs feed.new)) }
        ensures told { TellsNone G.SlipLog log.old log.new }
        ensures fed { DrawsClear F.Feed feed.old feed.new result }
        ensures kept { KeepAll self.old self.new }
    {
        for trib in 0..S::TRIBS {
            self.fill_one(trib, frame, slot, len, clock, feed, log)?;
        }
        Ok(())
    }
}
