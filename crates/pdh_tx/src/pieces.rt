//! Making the line of a multiplexer with stores a piece of a frame at a time, where nothing stands
//! in the way.

ghost use Rattle.std.specs.Prelude.{◌≡◌, ◌+◌, ◌<◌, ◌≤◌, ℕ, OnOk, OnErr};
ghost use Rattle.pdh_line.specs.Sending.{arrived_in};
ghost use Rattle.pdh_tx.specs.Meaning.{plan_in};
ghost use Rattle.pdh_tx.specs.Calls.{DrawsClear};
ghost use Rattle.pdh_tx.specs.Telling.{TellsNone};
ghost use Rattle.pdh_tx.specs.Tributaries.{AreFed, HaveDecided, HavePassed, IsPassable, PassOne, PassAll, FailFrom, KeepAll, KeepFirst};

use crate::Tx;
use crate::tributaries::Tributaries;
use pdh_clock::Schedule;
use pdh_edge::{Failed, Feed};
use pdh_shape::{Path, Shape};
use pdh_slips::SlipLog;

/// A piece of a node's frame.
#[derive(Clone, Copy, Debug, PartialEq, Eq)]
pub struct Piece {
    /// The node.
    pub path: Path,
    /// The frame, from 0.
    pub frame: u64,
    /// Its first slot, from 0.
    pub slot: u32,
    /// Its slots.
    pub len: usize,
}

/// How many bits arrive in a piece of a frame in which so many arrive.
pub fn arriving<S: Shape>(count: u32, first: u32, len: usize) -> usize
    requires inside { first + len ≤ S.LEN }
    requires fits { count ≤ S.LEN }
    ensures { arrived_in S.shape count first + result ≡ arrived_in S.shape count (first + len) }
{
    let (count, from, slots) = (u64::from(count), u64::from(first), u64::from(S::LEN));
    let to = from + len as u64;
    (to * count / slots - from * count / slots) as usize
}

impl<S: Shape, C: Tx> Tributaries<S, C> {
    // Passes the bits of a tributary through a piece of a frame, in whose way nothing stands, into
    // its column.
    fn pass_one<F: Feed, G: SlipLog>(
        &mut self,
        trib: u8,
        at: Piece,
        clock: &Schedule,
        feed: &mut F,
        log: &mut G,
    ) -> Result<(), Failed>
        requires trib { trib < S.TRIBS }
        requires inside { at.slot + at.len ≤ S.LEN }
        requires decided { HaveDecided self.old at.path (plan_in clock.now G.takes) at.frame }
        requires fed { AreFed self.old at.path clock.now (F.inputs feed.old) }
        requires placed { HavePassed self.old (plan_in clock.now G.takes) at trib }
        requires clear { IsPassable self.old (plan_in clock.now G.takes) at (F.inputs feed.old) trib }
        ensures ok { OnOk result (PassOne self.old self.new (plan_in clock.now G.takes) at trib (F.inputs feed.old) (F.inputs feed.new)) }
        ensures halts { OnErr result (FailFrom self.old (plan_in clock.now G.takes) at trib (F.inputs feed.old) (F.inputs feed.new)) }
        ensures told { TellsNone G.SlipLog log.old log.new }
        ensures fed { DrawsClear F.Feed feed.old feed.new result }
        ensures kept { KeepFirst self.old self.new trib }
    {
        let tributary = &mut self.list[trib as usize];
        let arriving = arriving::<S>(tributary.share.arriving, at.slot, at.len);
        tributary.pass::<S, F, G>(
            trib,
            arriving,
            &self.layout,
            at.slot,
            at.len,
            clock,
            feed,
            log,
            &mut self.scratch.queue,
            &mut self.scratch.columns[trib as usize],
        )
    }

    /// Passes the bits of all tributaries through a piece of a frame, in whose way nothing stands,
    /// into their columns.
    pub fn pass_all<F: Feed, G: SlipLog>(
        &mut self,
        at: Piece,
        clock: &Schedule,
        feed: &mut F,
        log: &mut G,
    ) -> Result<(), Failed>
        requires inside { at.slot + at.len ≤ S.LEN }
        requires decided { HaveDecided self.old at.path (plan_in clock.now G.takes) at.frame }
        requires fed { AreFed self.old at.path clock.now (F.inputs feed.old) }
        requires placed { HavePassed self.old (plan_in clock.now G.takes) at 0 }
        requires clear { (j : ℕ) → IsPassable self.old (plan_in clock.now G.takes) at (F.inputs feed.old) j }
        ensures ok { OnOk result (PassAll self.old self.new (plan_in clock.now G.takes) at S.TRIBS (F.inputs feed.old) (F.inputs feed.new)) }
        ensures halts { OnErr result (FailFrom self.old (plan_in clock.now G.takes) at 0 (F.inputs feed.old) (F.inputs feed.new)) }
        ensures told { TellsNone G.SlipLog log.old log.new }
        ensures fed { DrawsClear F.Feed feed.old feed.new result }
        ensures kept { KeepAll self.old self.new }
    {
        for trib in 0..S::TRIBS {
            self.pass_one(trib, at, clock, feed, log)?;
        }
        Ok(())
    }
}
