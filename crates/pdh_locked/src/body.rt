//! Tributaries without stores, as the body of a multiplexer.

ghost use Rattle.pdh_locked.specs.Children.{meanings as meanings_of, locked_kind, StandBefore, StandThrough, HoldsTo};
ghost use Rattle.pdh_locked.specs.Gathered.{Gathered, HoldGathered};
ghost use Rattle.pdh_locked.specs.laws.GatheredLaws.{gathered_follows, gathered_holds};
ghost use Rattle.pdh_locked.specs.laws.LockedLaws.{locked_grows, locked_is_kind, locked_next, locked_holds, locked_count, locked_longer};
ghost use Rattle.pdh_tx.specs.laws.StoredLaws.{stored_long};

use crate::beginning::begin;
use crate::children::Children;
use crate::gathering::NextSlots;
use crate::quiet::{MOST_ASKED, frames_of, slots_scheduled};
use pdh_clock::Schedule;
use pdh_edge::{Failed, Feed};
use pdh_packed::Packed;
use pdh_shape::{Path, Service, Shape};
use pdh_slips::SlipLog;
use pdh_tx::{Body, Piece, Tx, TxStop, carried, overhead_of, write_overhead};

impl<S: Shape, C: Tx> Body<S> for Children<S, C> {
    ghost kind = { locked_kind S.shape };

    ghost meanings = { λ b. meanings_of b };

    ghost stands = { λ b. StandBefore b };

    ghost stood = { λ b. StandThrough b };

    ghost holds = { λ b. HoldsTo b };

    ghost held = { λ b. HoldsTo b };

    ghost gathered = { λ b. Gathered b };

    ghost holds_gathered = { λ b. HoldGathered b };

    fn bit<F: Feed, G: SlipLog>(
        &mut self,
        path: Path,
        frame: u64,
        slot: u32,
        say: &Service,
        odd: bool,
        clock: &Schedule,
        feed: &mut F,
        log: &mut G,
    ) -> Result<bool, TxStop> {
        begin(path, frame, slot, clock)?;
        match carried::<S, ()>(slot, &()) {
            Some(trib) => self.read(trib, clock, feed, log),
            None => Ok(overhead_of::<S, ()>(S::role(slot), say, odd, &())),
        }
    }

    fn quiet<F: Feed, G: SlipLog>(
        &self,
        path: Path,
        frame: u64,
        slot: u32,
        clock: &Schedule,
        feed: &F,
        most: usize,
    ) -> usize {
        let slots = slots_scheduled::<S>(path, frame, slot, clock, most.min(MOST_ASKED));
        let bits = frames_of::<S>(slot, slots) * u64::from(S::LOW);
        if !self.all_stay_free::<F, G>(bits as usize, clock, feed) {
            return 0;
        }
        slots
    }

    fn piece<F: Feed, G: SlipLog>(
        &mut self,
        at: Piece,
        say: &Service,
        odd: bool,
        clock: &Schedule,
        feed: &mut F,
        log: &mut G,
        into: &mut Packed,
    ) -> Result<bool, Failed> {
        // the number of the frame after it fits, since the count of frames does
        let _fits = clock.frames(&at.path);
        write_overhead::<S, ()>(&self.layout, at, say, odd, &(), &mut self.scratch.overhead);
        self.fill_all(at.frame, at.slot, at.len, clock, feed, log)?;
        Ok(
            self.layout.assemble(
                at.slot,
                at.len,
                &self.scratch.overhead,
                &self.scratch.columns,
                &mut self.scratch.payload,
                into,
            ),
        )
    }

    fn gather<F: Feed, G: SlipLog>(
        &mut self,
        path: Path,
        frame: u64,
        slot: u32,
        len: usize,
        clock: &Schedule,
        feed: &mut F,
        log: &mut G,
    ) -> Result<(), Failed> {
        // the number of the frame after each fits, since the count of frames does
        let _fits = clock.frames(&path);
        let behind = slot as usize + len;
        let wide = S::LEN as usize;
        let slots = NextSlots {
            frame,
            slot,
            frames: behind / wide,
            end: (behind % wide) as u32,
        };
        self.gather_all(slots, clock, feed, log)
    }

    fn gathered_piece<G: SlipLog>(
        &mut self,
        at: Piece,
        say: &Service,
        odd: bool,
        clock: &Schedule,
        into: &mut Packed,
    ) -> bool {
        // what a frame carries of each is the same in all frames
        let _any = clock;
        write_overhead::<S, ()>(&self.layout, at, say, odd, &(), &mut self.scratch.overhead);
        self.carry_all(at);
        self.layout.assemble(
            at.slot,
            at.len,
            &self.scratch.overhead,
            &self.scratch.columns,
            &mut self.scratch.payload,
            into,
        )
    }

    fn scatter(&mut self) {}

    ghost is_kind = { λ b. locked_is_kind S.shape S.has_tributaries b.locked };

    ghost count = { λ b. locked_count C.Tx.own S.shape b.list.items S.TRIBS S.tribs_is b.count };

    ghost stands_next = { λ b path plan n t n' t'. locked_next C.Tx.own S.shape S.has_tributaries path plan b.list.items (stored_long b.list.items S.shape.tribs S.TRIBS S.tribs_is b.count) n t n' t' };

    ghost holds_next = { λ b path plan supply n t n' t' follows. locked_holds C.Tx.own S.shape S.has_tributaries path plan b.list.items (stored_long b.list.items S.shape.tribs S.TRIBS S.tribs_is b.count) n t n' t' follows supply };

    ghost gathered_next = { λ b path plan end n t n' t'. gathered_follows S.has_tributaries S.tribs_is b path plan end n t n' t' };

    ghost holds_gathered_next = { λ b path plan supply end n t n' t'. gathered_holds S.has_tributaries S.tribs_is b path plan supply end n t n' t' };

    ghost grows = { λ b path. locked_grows C.Tx.own C.grows S.shape S.is_frame S.has_tributaries b.locked path b.list.items };

    ghost longer = { λ b path. locked_longer C.Tx.own C.longer S.shape path b.list.items };
}
