//! What comes where a frame begins: the leads before the first one, and its decisions on
//! justification.

ghost use Rattle.std.specs.Prelude.{◌≡◌, ◌<◌, ◌≤◌, ◌^◌, ℕ, suc, map, slice_get, Some, OnOk, IfErr};
ghost use Rattle.pdh_tx.specs.Meaning.{plan_in, plan_of, IsNodeOf};
ghost use Rattle.pdh_tx.specs.Calls.{Draws};
ghost use Rattle.pdh_tx.specs.Tributary.{share_in, child_in, store_in, would_carry};
ghost use Rattle.pdh_tx.specs.Node.{node_frame};
ghost use Rattle.pdh_tx.specs.Tributaries.{meanings, AreFed, HaveDecided, StandBefore, lead_stretch, leads_stretch, beginning_stretch, StandAt, GoThrough, StopIn, TellIn};

use crate::tributaries::Tributaries;
use crate::{Tx, TxStop};
use pdh_clock::Schedule;
use pdh_edge::Feed;
use pdh_shape::{Path, Place, Shape};
use pdh_slips::SlipLog;

impl<S: Shape, C: Tx> Tributaries<S, C> {
    // Takes a tributary's lead.
    fn take_lead<F: Feed, G: SlipLog>(
        &mut self,
        trib: u8,
        path: Path,
        clock: &Schedule,
        feed: &mut F,
        log: &mut G,
    ) -> Result<(), TxStop>
        requires trib { trib < S.TRIBS }
        requires fed { AreFed self.old path clock.now (F.inputs feed.old) }
        requires placed { StandAt self.old (lead_stretch self.old (plan_in clock.now G.takes) trib) }
        ensures ok { OnOk result (GoThrough self.old self.new (lead_stretch self.old (plan_in clock.now G.takes) trib)
            (F.inputs feed.old) (F.inputs feed.new)) }
        ensures err { IfErr result (λ stop. StopIn self.old (lead_stretch self.old (plan_in clock.now G.takes) trib) stop
            (F.inputs feed.old) (F.inputs feed.new) (F.feed_faults feed.old) (F.feed_faults feed.new)) }
        ensures told { TellIn (lead_stretch self.old (plan_in clock.now G.takes) trib) G.SlipLog log.old log.new result }
        ensures fed { Draws F.Feed feed.old feed.new result }
        ensures same { meanings self.new ≡ meanings self.old }
    {
        prove!(trib < S::TRIBS);
        let place = Place {
            path,
            trib: trib + 1,
            frame: 0,
            slot: 0,
        };
        self.list[trib as usize].lead(place, clock, feed, log)
    }

    // The tributaries in order take their leads.
    fn take_leads<F: Feed, G: SlipLog>(
        &mut self,
        path: Path,
        clock: &Schedule,
        feed: &mut F,
        log: &mut G,
    ) -> Result<(), TxStop>
        requires fed { AreFed self.old path clock.now (F.inputs feed.old) }
        requires placed { StandAt self.old (leads_stretch self.old (plan_in clock.now G.takes) S.TRIBS) }
        ensures ok { OnOk result (GoThrough self.old self.new (leads_stretch self.old (plan_in clock.now G.takes) S.TRIBS)
            (F.inputs feed.old) (F.inputs feed.new)) }
        ensures err { IfErr result (λ stop. StopIn self.old (leads_stretch self.old (plan_in clock.now G.takes) S.TRIBS) stop
            (F.inputs feed.old) (F.inputs feed.new) (F.feed_faults feed.old) (F.feed_faults feed.new)) }
        ensures told { TellIn (leads_stretch self.old (plan_in clock.now G.takes) S.TRIBS) G.SlipLog log.old log.new result }
        ensures fed { Draws F.Feed feed.old feed.new result }
        ensures same { meanings self.new ≡ meanings self.old }
    {
        for trib in 0..S::TRIBS {
            self.take_lead(trib, path, clock, feed, log)?;
        }
        Ok(())
    }

    // Takes the leads where the first frame begins.
    fn take_first<F: Feed, G: SlipLog>(
        &mut self,
        path: Path,
        frame: u64,
        clock: &Schedule,
        feed: &mut F,
        log: &mut G,
    ) -> Result<(), TxStop>
        requires scheduled { frame < (plan_in clock.now G.takes).frames path }
        requires fed { AreFed self.old path clock.now (F.inputs feed.old) }
        requires placed { StandAt self.old (beginning_stretch self.old path (plan_in clock.now G.takes) frame 0) }
        ensures ok { OnOk result (GoThrough self.old self.new (beginning_stretch self.old path (plan_in clock.now G.takes) frame 0)
            (F.inputs feed.old) (F.inputs feed.new)) }
        ensures err { IfErr result (λ stop. StopIn self.old (beginning_stretch self.old path (plan_in clock.now G.takes) frame 0) stop
            (F.inputs feed.old) (F.inputs feed.new) (F.feed_faults feed.old) (F.feed_faults feed.new)) }
        ensures told { TellIn (beginning_stretch self.old path (plan_in clock.now G.takes) frame 0) G.SlipLog log.old log.new result }
        ensures fed { Draws F.Feed feed.old feed.new result }
        ensures same { meanings self.new ≡ meanings self.old }
    {
        if frame > 0 {
            return Ok(());
        }
        self.take_leads(path, clock, feed, log)
    }

    // Makes the decisions of the frame that begins.
    fn decide_all(&mut self, path: Path, frame: u64, clock: &Schedule)
        requires node { IsNodeOf clock.now.levels (node_frame S.shape path) }
        requires scheduled { frame < (plan_of clock.now).frames path }
        ensures child { map child_in self.new.list.items ≡ map child_in self.old.list.items }
        ensures store { map store_in self.new.list.items ≡ map store_in self.old.list.items }
        ensures more { (j : ℕ) (w : _) → slice_get self.new.list.items j ≡ Some w
            → (share_in w).more ≡ would_carry w }
        ensures arriving { (j : ℕ) (w : _) → slice_get self.new.list.items j ≡ Some w
            → (share_in w).arriving ≡ (plan_of clock.now).counts path j frame }
        ensures fits { (j : ℕ) → j < S.TRIBS → (plan_of clock.now).counts path j frame ≤ S.LEN }
    {
        let arriving = clock.counts(&path, frame);
        for trib in 0..S::TRIBS {
            self.list[trib as usize].decide(arriving[trib as usize]);
        }
    }

    /// Begins a frame, where a slot is the first of one: it has to be scheduled, the tributaries
    /// take their leads where it is the first frame, and the frame's decisions are made.
    pub fn begin<F: Feed, G: SlipLog>(
        &mut self,
        path: Path,
        frame: u64,
        slot: u32,
        clock: &Schedule,
        feed: &mut F,
        log: &mut G,
    ) -> Result<(), TxStop>
        requires fed { AreFed self.old path clock.now (F.inputs feed.old) }
        requires placed { StandBefore self.old path (plan_in clock.now G.takes) frame slot }
        ensures decided { OnOk result (HaveDecided self.new path (plan_in clock.now G.takes) frame) }
        ensures scheduled { OnOk result (frame < (plan_in clock.now G.takes).frames path) }
        ensures bounded { OnOk result (suc frame < 2 ^ 64) }
        ensures ok { OnOk result (GoThrough self.old self.new (beginning_stretch self.old path (plan_in clock.now G.takes) frame slot)
            (F.inputs feed.old) (F.inputs feed.new)) }
        ensures err { IfErr result (λ stop. StopIn self.old (beginning_stretch self.old path (plan_in clock.now G.takes) frame slot) stop
            (F.inputs feed.old) (F.inputs feed.new) (F.feed_faults feed.old) (F.feed_faults feed.new)) }
        ensures told { TellIn (beginning_stretch self.old path (plan_in clock.now G.takes) frame slot) G.SlipLog log.old log.new result }
        ensures fed { Draws F.Feed feed.old feed.new result }
        ensures same { meanings self.new ≡ meanings self.old }
    {
        if slot > 0 {
            return Ok(());
        }
        self.begin_frame(path, frame, clock, feed, log)
    }

    // Begins a frame.
    fn begin_frame<F: Feed, G: SlipLog>(
        &mut self,
        path: Path,
        frame: u64,
        clock: &Schedule,
        feed: &mut F,
        log: &mut G,
    ) -> Result<(), TxStop>
        requires fed { AreFed self.old path clock.now (F.inputs feed.old) }
        requires placed { StandAt self.old (beginning_stretch self.old path (plan_in clock.now G.takes) frame 0) }
        ensures decided { OnOk result (HaveDecided self.new path (plan_in clock.now G.takes) frame) }
        ensures scheduled { OnOk result (frame < (plan_in clock.now G.takes).frames path) }
        ensures bounded { OnOk result (suc frame < 2 ^ 64) }
        ensures ok { OnOk result (GoThrough self.old self.new (beginning_stretch self.old path (plan_in clock.now G.takes) frame 0)
            (F.inputs feed.old) (F.inputs feed.new)) }
        ensures err { IfErr result (λ stop. StopIn self.old (beginning_stretch self.old path (plan_in clock.now G.takes) frame 0) stop
            (F.inputs feed.old) (F.inputs feed.new) (F.feed_faults feed.old) (F.feed_faults feed.new)) }
        ensures told { TellIn (beginning_stretch self.old path (plan_in clock.now G.takes) frame 0) G.SlipLog log.old log.new result }
        ensures fed { Draws F.Feed feed.old feed.new result }
        ensures same { meanings self.new ≡ meanings self.old }
    {
        if frame >= clock.frames(&path) {
            return Err(TxStop::NoFrame { node: path });
        }
        self.take_first(path, frame, clock, feed, log)?;
        self.decide_all(path, frame, clock);
        Ok(())
    }
}
