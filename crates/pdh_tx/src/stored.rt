//! Tributaries with elastic stores, as the body of a multiplexer.

ghost use Rattle.pdh_tx.specs.Stored.{stored_kind};
ghost use Rattle.pdh_tx.specs.Tributary.{placed_in, held_in, share_in};
ghost use Rattle.pdh_tx.specs.Tributaries.{meanings as meanings_of, StandBefore, StandThrough, HoldToHere, HoldToThere};
ghost use Rattle.pdh_tx.specs.Gathered.{Gathered, HoldGathered};
ghost use Rattle.pdh_tx.specs.laws.NodeLaws.{node_grows, node_longer};
ghost use Rattle.pdh_tx.specs.laws.GatheredLaws.{gathered_follows, gathered_holds};
ghost use Rattle.pdh_tx.specs.laws.StoredLaws.{stored_is, stored_next, stored_holds, stored_count, stored_long};

use crate::body::Body;
use crate::decisions::write_overhead;
use crate::pieces::Piece;
use crate::quiet::NextBits;
use crate::tributaries::Tributaries;
use crate::tributary::Tributary;
use crate::{Tx, TxStop};
use pdh_clock::Schedule;
use pdh_edge::{Failed, Feed};
use pdh_packed::Packed;
use pdh_shape::{Path, Service, Shape};
use pdh_slips::SlipLog;

impl<S: Shape, C: Tx> Body<S> for Tributaries<S, C> {
    ghost kind = { stored_kind S.shape };

    ghost meanings = { λ b. meanings_of b };

    ghost stands = { λ b. StandBefore b };

    ghost stood = { λ b. StandThrough b };

    ghost holds = { λ b. HoldToHere b };

    ghost held = { λ b. HoldToThere b };

    ghost gathered = { λ b. Gathered b };

    ghost holds_gathered = { λ b. HoldGathered b };

    fn bit<F: Feed, G: SlipLog>(
        &mut self,
        path: Path,
        frame: u64,
        slot: u32,
        say: &Service,
        odd: bool,
        clock: &Schedule,
        feed: &mut F,
        log: &mut G,
    ) -> Result<bool, TxStop> {
        self.begin(path, frame, slot, clock, feed, log)?;
        self.take_arrivals(path, frame, slot, clock, feed, log)?;
        self.slot_bit(path, frame, slot, say, odd, log)
    }

    fn quiet<F: Feed, G: SlipLog>(
        &self,
        path: Path,
        frame: u64,
        slot: u32,
        clock: &Schedule,
        feed: &F,
        most: usize,
    ) -> usize {
        let len = u128::from(S::LEN);
        let made = u128::from(frame) * len + u128::from(slot);
        let end = made + most as u128;
        let end_frame = end.div_ceil(len);
        if end_frame > u128::from(clock.frames(&path)) {
            return 0;
        }
        let next = NextBits {
            path,
            frame,
            slot,
            made,
            end,
            end_frame: end_frame as u64,
        };
        if !self.meet_nothing::<F, G>(next, clock, feed) {
            return 0;
        }
        most
    }

    fn piece<F: Feed, G: SlipLog>(
        &mut self,
        at: Piece,
        say: &Service,
        odd: bool,
        clock: &Schedule,
        feed: &mut F,
        log: &mut G,
        into: &mut Packed,
    ) -> Result<bool, Failed> {
        match self.begin(at.path, at.frame, at.slot, clock, feed, log) {
            Ok(()) => {
                write_overhead::<S, Vec<Tributary<C>>>(
                    &self.layout,
                    at,
                    say,
                    odd,
                    &self.list,
                    &mut self.scratch.overhead,
                );
                self.pass_all(at, clock, feed, log)?;
                Ok(
                    self.layout.assemble(
                        at.slot,
                        at.len,
                        &self.scratch.overhead,
                        &self.scratch.columns,
                        &mut self.scratch.payload,
                        into,
                    ),
                )
            }
            Err(_stop) => Err(Failed),
        }
    }

    fn gather<F: Feed, G: SlipLog>(
        &mut self,
        path: Path,
        frame: u64,
        slot: u32,
        len: usize,
        clock: &Schedule,
        feed: &mut F,
        log: &mut G,
    ) -> Result<(), Failed> {
        // what arrives in the slots fits, since no frame brings more bits than it has
        clock.counts_fit();
        let slots = u128::from(S::LEN);
        let made = u128::from(frame) * slots + u128::from(slot);
        let next = NextBits {
            path,
            frame,
            slot,
            made,
            end: made + len as u128,
            end_frame: clock.frames(&path),
        };
        self.gather_all(next, clock, feed, log)
    }

    fn gathered_piece<G: SlipLog>(
        &mut self,
        at: Piece,
        say: &Service,
        odd: bool,
        clock: &Schedule,
        into: &mut Packed,
    ) -> bool {
        self.begin_gathered::<G>(at, clock);
        write_overhead::<S, Vec<Tributary<C>>>(
            &self.layout,
            at,
            say,
            odd,
            &self.list,
            &mut self.scratch.overhead,
        );
        self.carry_all(at);
        self.layout.assemble(
            at.slot,
            at.len,
            &self.scratch.overhead,
            &self.scratch.columns,
            &mut self.scratch.payload,
            into,
        )
    }

    fn scatter(&mut self) {
        self.scatter_all()
    }

    ghost is_kind = { λ b. stored_is S.shape S.is_frame };

    ghost count = { λ b. stored_count C.Tx.own S.shape b.list.items S.TRIBS S.tribs_is b.count };

    ghost stands_next = { λ b path plan n t n' t'. stored_next (placed_in C.Tx.own) (held_in C.Tx.own) share_in S.shape S.is_frame b.stores S.has_tributaries path plan b.list.items (stored_long b.list.items S.shape.tribs S.TRIBS S.tribs_is b.count) n t n' t' };

    ghost holds_next = { λ b path plan supply n t n' t' follows. stored_holds (placed_in C.Tx.own) (held_in C.Tx.own) share_in S.shape S.is_frame b.stores S.has_tributaries path plan b.list.items (stored_long b.list.items S.shape.tribs S.TRIBS S.tribs_is b.count) n t n' t' follows supply };

    ghost gathered_next = { λ b path plan end n t n' t'. gathered_follows S.is_frame b.stores S.has_tributaries S.tribs_is b path plan end n t n' t' };

    ghost holds_gathered_next = { λ b path plan supply end n t n' t'. gathered_holds S.is_frame b.stores S.has_tributaries S.tribs_is b path plan supply end n t n' t' };

    ghost grows = { λ b path. node_grows C.Tx.own C.grows S.shape S.is_frame path b.list.items };

    ghost longer = { λ b path. node_longer C.Tx.own C.longer S.shape path b.list.items };
}
