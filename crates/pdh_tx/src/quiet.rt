//! Whether the next bits of a multiplexer with stores surely meet nothing, as its state tells: its stores stay away from both their
//! ends, and its children meet nothing in the bits that arrive.

ghost use Rattle.std.specs.Prelude.{◌≡◌, ◌<◌, ◌≤◌, ◌+◌, ◌*◌, ℕ, true, slice_get, Some};
ghost use Rattle.pdh_line.specs.Sending.{HasStores};
ghost use Rattle.pdh_tx.specs.Meaning.{Plan, plan_in};
ghost use Rattle.pdh_tx.specs.Calls.{IsFed};
ghost use Rattle.pdh_tx.specs.Tributary.{meaning_in};
ghost use Rattle.pdh_tx.specs.Tributaries.{AreFed, StandBefore};
ghost use Rattle.pdh_tx.specs.Quiet.{AreNext, StandsNext, HoldsFrom, MeetsNothing};

use crate::Tx;
use crate::pieces::arriving;
use crate::tributaries::Tributaries;
use crate::tributary::Tributary;
use pdh_clock::Schedule;
use pdh_edge::Feed;
use pdh_runs::Layout;
use pdh_shape::{LEAD, Path, Shape, THRESHOLD};
use pdh_slips::SlipLog;

/// The next bits of a multiplexer's line, over the ends of frames.
#[derive(Clone, Copy, Debug, PartialEq, Eq)]
pub struct NextBits {
    /// The multiplexer.
    pub path: Path,
    /// The frame of the first of them, from 0.
    pub frame: u64,
    /// And its slot, from 0.
    pub slot: u32,
    /// How many bits the line has before them.
    pub made: u128,
    /// And how many with them.
    pub end: u128,
    /// The frame behind those that they are of.
    pub end_frame: u64,
}

impl<C: Tx> Tributary<C> {
    // The fill of its store at the start of the frame of the next bit, as the store and the frame so far tell it; 0 where they tell
    // none. Where the store slipped in the frame, it is the fill with which it would be as it is without that, if such a fill
    // makes the frame's decision too.
    fn start_fill<S: Shape>(&self, trib: u8, next: NextBits, layout: &Layout<S>) -> u64
        requires trib { trib < S.TRIBS }
        requires stores { HasStores S.shape }
        requires slot { next.slot < S.LEN }
        requires made { next.frame * S.LEN + next.slot ≡ next.made }
        requires fits { 0 < next.slot → self.now.share.arriving ≤ S.LEN }
        ensures { (plan : Plan) → StandsNext C.Tx S.shape self.now trib plan next → 0 < result
            → HoldsFrom plan.mode S.shape trib (plan.counts next.path trib) next.frame next.slot result }
    {
        if next.made == 0 {
            return u64::from(LEAD);
        }
        let fill = u64::from(self.store.fill());
        if next.slot == 0 {
            return fill;
        }
        let slots = next.slot as usize;
        let carried = layout.carried(trib, self.share.more, 0, slots);
        let arrived = arriving::<S>(self.share.arriving, 0, slots);
        let start = (fill + carried as u64).saturating_sub(arrived as u64);
        if self.share.more != (start >= u64::from(THRESHOLD)) {
            return 0;
        }
        start
    }

    /// Whether the next bits of its multiplexer surely meet nothing of a tributary, counted from 0.
    pub fn meets_nothing<S: Shape, F: Feed, G: SlipLog>(
        &self,
        trib: u8,
        next: NextBits,
        layout: &Layout<S>,
        clock: &Schedule,
        feed: &F,
    ) -> bool
        requires trib { trib < S.TRIBS }
        requires stores { HasStores S.shape }
        requires next { AreNext S.shape clock.now next }
        requires fed { IsFed (meaning_in C.Tx self.now) clock.now (F.inputs feed.now) }
        requires stands { StandsNext C.Tx S.shape self.now trib (plan_in clock.now G.takes) next }
        ensures { result ≡ true → MeetsNothing C.Tx S.shape self.now trib (plan_in clock.now G.takes) next (F.inputs feed.now) }
    {
        let fill = self.start_fill(trib, next, layout);
        if !clock.stays_inside(&next.path, trib, fill, next.frame, next.end_frame) {
            return false;
        }
        let arriving = clock.arriving(&next.path, trib, next.made, next.end);
        let Ok(bits) = usize::try_from(arriving) else {
            return false;
        };
        self.child.quiet::<F, G>(clock, feed, bits) == bits
    }
}

impl<S: Shape, C: Tx> Tributaries<S, C> {
    /// Whether the next bits of their multiplexer surely meet nothing.
    pub fn meet_nothing<F: Feed, G: SlipLog>(
        &self,
        next: NextBits,
        clock: &Schedule,
        feed: &F,
    ) -> bool
        requires next { AreNext S.shape clock.now next }
        requires fed { AreFed self.now next.path clock.now (F.inputs feed.now) }
        requires placed { StandBefore self.now next.path (plan_in clock.now G.takes) next.frame next.slot }
        ensures { result ≡ true → (j : ℕ) (w : _) → slice_get self.now.list.items j ≡ Some w
            → MeetsNothing C.Tx S.shape w j (plan_in clock.now G.takes) next (F.inputs feed.now) }
    {
        for trib in 0..S::TRIBS {
            if !self.list[trib as usize].meets_nothing::<S, F, G>(
                trib,
                next,
                &self.layout,
                clock,
                feed,
            ) {
                return false;
            }
        }
        true
    }
}
