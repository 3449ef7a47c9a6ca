//! The bits that arrive in a slot, so that those of a frame are spread over it.

ghost use Rattle.std.specs.Prelude.{◌≡◌, ◌<◌, ◌≤◌, OnOk, IfErr};
ghost use Rattle.pdh_line.specs.Sending.{arrives_at};
ghost use Rattle.pdh_tx.specs.Meaning.{plan_in};
ghost use Rattle.pdh_tx.specs.Calls.{Draws};
ghost use Rattle.pdh_tx.specs.Tributaries.{meanings, shares, AreFed, HaveDecided, arrival_stretch, arrivals_stretch, StandAt, GoThrough, StopIn, TellIn};

use crate::tributaries::Tributaries;
use crate::{Tx, TxStop};
use pdh_clock::Schedule;
use pdh_edge::Feed;
use pdh_shape::{Path, Place, Shape};
use pdh_slips::SlipLog;

// Whether a bit arrives in a slot of a frame in which so many arrive: exactly where what the slots
// before it, each with that number, leave over whole frame lengths reaches one with it.
fn arrives<S: Shape>(count: u32, slot: u32) -> bool
    requires slot { slot < S.LEN }
    requires fits { count ≤ S.LEN }
    ensures { result ≡ arrives_at S.shape count slot }
{
    let (count, slot, len) = (u64::from(count), u64::from(slot), u64::from(S::LEN));
    slot * count % len + count >= len
}

impl<S: Shape, C: Tx> Tributaries<S, C> {
    // Takes the bit of a tributary that arrives in a slot, if there is one.
    fn take_arrival<F: Feed, G: SlipLog>(
        &mut self,
        trib: u8,
        path: Path,
        frame: u64,
        slot: u32,
        clock: &Schedule,
        feed: &mut F,
        log: &mut G,
    ) -> Result<(), TxStop>
        requires trib { trib < S.TRIBS }
        requires slot { slot < S.LEN }
        requires decided { HaveDecided self.old path (plan_in clock.now G.takes) frame }
        requires fed { AreFed self.old path clock.now (F.inputs feed.old) }
        requires placed { StandAt self.old (arrival_stretch self.old path (plan_in clock.now G.takes) frame slot trib) }
        ensures ok { OnOk result (GoThrough self.old self.new (arrival_stretch self.old path (plan_in clock.now G.takes) frame slot trib)
            (F.inputs feed.old) (F.inputs feed.new)) }
        ensures err { IfErr result (λ stop. StopIn self.old (arrival_stretch self.old path (plan_in clock.now G.takes) frame slot trib) stop
            (F.inputs feed.old) (F.inputs feed.new) (F.feed_faults feed.old) (F.feed_faults feed.new)) }
        ensures told { TellIn (arrival_stretch self.old path (plan_in clock.now G.takes) frame slot trib) G.SlipLog log.old log.new result }
        ensures fed { Draws F.Feed feed.old feed.new result }
        ensures same { meanings self.new ≡ meanings self.old }
        ensures shares { shares self.new ≡ shares self.old }
    {
        let count = self.list[trib as usize].share.arriving;
        if !arrives::<S>(count, slot) {
            return Ok(());
        }
        prove!(trib < S::TRIBS);
        let place = Place {
            path,
            trib: trib + 1,
            frame,
            slot,
        };
        self.list[trib as usize].arrive(place, clock, feed, log)
    }

    /// One tributary after another takes the bit that arrives in a slot, if there is one.
    pub fn take_arrivals<F: Feed, G: SlipLog>(
        &mut self,
        path: Path,
        frame: u64,
        slot: u32,
        clock: &Schedule,
        feed: &mut F,
        log: &mut G,
    ) -> Result<(), TxStop>
        requires slot { slot < S.LEN }
        requires decided { HaveDecided self.old path (plan_in clock.now G.takes) frame }
        requires fed { AreFed self.old path clock.now (F.inputs feed.old) }
        requires placed { StandAt self.old (arrivals_stretch self.old path (plan_in clock.now G.takes) frame slot S.TRIBS) }
        ensures ok { OnOk result (GoThrough self.old self.new (arrivals_stretch self.old path (plan_in clock.now G.takes) frame slot S.TRIBS)
            (F.inputs feed.old) (F.inputs feed.new)) }
        ensures err { IfErr result (λ stop. StopIn self.old (arrivals_stretch self.old path (plan_in clock.now G.takes) frame slot S.TRIBS) stop
            (F.inputs feed.old) (F.inputs feed.new) (F.feed_faults feed.old) (F.feed_faults feed.new)) }
        ensures told { TellIn (arrivals_stretch self.old path (plan_in clock.now G.takes) frame slot S.TRIBS) G.SlipLog log.old log.new result }
        ensures fed { Draws F.Feed feed.old feed.new result }
        ensures same { meanings self.new ≡ meanings self.old }
        ensures shares { shares self.new ≡ shares self.old }
    {
        for trib in 0..S::TRIBS {
            self.take_arrival(trib, path, frame, slot, clock, feed, log)?;
        }
        Ok(())
    }
}
