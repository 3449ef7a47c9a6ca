//! The multiplexer, as a sender: where it stands in its line, what its frames say, and whether it has stopped. Its
//! tributaries are its body.

ghost use Rattle.std.specs.Prelude.{◌≡◌, ◌≤◌, ◌+◌, ◌*◌, ℕ, length, OnOk, OnErr, IfOk, IfErr};
ghost use Rattle.pdh_packed.specs.Gaining.{gained};
ghost use Rattle.pdh_tx.specs.Meaning.{Plan, Supply, plan_in, IsFresh};
ghost use Rattle.pdh_tx.specs.Calls.{Draws, DrawsClear, Appends, IsPieceOf, IsKept, StandsBy, StandsClear, MakesNext, StopsNext, TellsNext, MakesNextAll, HaltsNext};
ghost use Rattle.pdh_tx.specs.Telling.{TellsNone};
ghost use Rattle.pdh_tx.specs.Body.{sender_meaning, AreFedBelow, SenderAt, SenderFor};
ghost use Rattle.pdh_tx.specs.Batches.{batch, AreSomeUpTo};

use crate::batches::BATCH;
use crate::body::Body;
use crate::pieces::Piece;
use crate::position::{Position, after, moved, said};
use crate::{Tx, TxStop};
use pdh_clock::Schedule;
use pdh_edge::{Failed, Feed};
use pdh_packed::Packed;
use pdh_shape::{Path, Service, Shape};
use pdh_slips::SlipLog;
use std::marker::PhantomData;

/// A multiplexer over its tributaries.
#[derive(Drop)]
pub struct Sender<S: Shape, B: Body<S>> {
    /// Its tributaries.
    pub(crate) body: B,
    /// Its place in a chain.
    pub(crate) path: Path,
    /// Where it stands.
    pub(crate) at: Position,
    // what the service bits of the frame in progress say, and those of the next frame
    say: Service,
    next_say: Service,
    stopped: bool,
    shape: PhantomData<S>,
}

impl<S: Shape, B: Body<S>> Sender<S, B> {
    /// A multiplexer over tributaries that have made no bit, at this place in a chain. It has made no
    /// bit, and its service bits are idle.
    pub fn over(path: Path, body: B) -> Sender<S, B>
        requires placed { (plan : Plan) → B.stands body path plan 0 0 }
        requires held { (supply : Supply) → B.holds body path supply.plan supply 0 0 }
        ensures meaning { ⟦<Sender<S, B> as Tx>⟧.meaning result ≡ sender_meaning S.shape B.kind path (B.meanings body) }
        ensures fresh { IsFresh ⟦<Sender<S, B> as Tx>⟧.stands_at ⟦<Sender<S, B> as Tx>⟧.stands_for
            ⟦<Sender<S, B> as Tx>⟧.says ⟦<Sender<S, B> as Tx>⟧.is_stopped result }
    {
        Sender {
            body,
            path,
            at: Position {
                frame: 0,
                slot: 0,
                last_odd: false,
                is_odd: false,
            },
            say: Service::idle(),
            next_say: Service::idle(),
            stopped: false,
            shape: PhantomData,
        }
    }

    /// Gives the service bits from the next frame's start on.
    pub fn set(&mut self, say: Service)
        ensures says { ⟦<Sender<S, B> as Tx>⟧.says self.new ≡ say }
        ensures meaning { ⟦<Sender<S, B> as Tx>⟧.meaning self.new
            ≡ ⟦<Sender<S, B> as Tx>⟧.meaning self.old }
        ensures placed { (plan : Plan) (x : ℕ) → ⟦<Sender<S, B> as Tx>⟧.stands_at self.old plan x
            → ⟦<Sender<S, B> as Tx>⟧.stands_at self.new plan x }
        ensures held { (supply : Supply) (x : ℕ)
            → ⟦<Sender<S, B> as Tx>⟧.stands_for self.old supply x
            → ⟦<Sender<S, B> as Tx>⟧.stands_for self.new supply x }
        ensures stopped { ⟦<Sender<S, B> as Tx>⟧.is_stopped self.new
            ≡ ⟦<Sender<S, B> as Tx>⟧.is_stopped self.old }
    {
        self.next_say = say;
    }

    // Makes the next bit, with all its steps.
    fn step<F: Feed, G: SlipLog>(
        &mut self,
        clock: &Schedule,
        feed: &mut F,
        log: &mut G,
    ) -> Result<bool, TxStop>
        requires fed { AreFedBelow S.shape self.old.path (B.meanings self.old.body) clock.now (F.inputs feed.old) }
        requires stands { StandsBy ⟦<Sender<S, B> as Tx>⟧.stands_at self.old (plan_in clock.now G.takes) }
        ensures made { let tx = ⟦<Sender<S, B> as Tx>⟧ in IfOk result (λ bit.
            MakesNext tx.meaning tx.says tx.stands_at tx.stands_for self.old self.new (plan_in clock.now G.takes) bit
            (F.inputs feed.old) (F.inputs feed.new)) }
        ensures stops { let tx = ⟦<Sender<S, B> as Tx>⟧ in IfErr result (λ stop.
            StopsNext tx.meaning tx.stands_at self.old (plan_in clock.now G.takes) stop
            (F.inputs feed.old) (F.inputs feed.new) (F.feed_faults feed.old) (F.feed_faults feed.new)) }
        ensures told { let tx = ⟦<Sender<S, B> as Tx>⟧ in
            TellsNext tx.meaning tx.stands_at self.old (plan_in clock.now G.takes) G.SlipLog log.old log.new result }
        ensures running { self.new.stopped ≡ self.old.stopped }
        ensures fed { Draws F.Feed feed.old feed.new result }
        ensures kept { let tx = ⟦<Sender<S, B> as Tx>⟧ in IsKept tx.meaning tx.says self.old self.new }
    {
        let say = said(self.at.slot, self.say, self.next_say);
        let bit = self.body.bit(
            self.path,
            self.at.frame,
            self.at.slot,
            &say,
            self.at.last_odd,
            clock,
            feed,
            log,
        )?;
        self.say = say;
        self.at = after::<S>(self.at, bit);
        Ok(bit)
    }

    // Makes the next bits, so many within a frame, in whose way nothing stands and which bring no slip,
    // and appends them to `into`.
    fn piece<F: Feed, G: SlipLog>(
        &mut self,
        clock: &Schedule,
        feed: &mut F,
        log: &mut G,
        len: usize,
        into: &mut Packed,
    ) -> Result<(), Failed>
        requires fed { AreFedBelow S.shape self.old.path (B.meanings self.old.body) clock.now (F.inputs feed.old) }
        requires piece { IsPieceOf S.LEN self.old.at.slot len }
        requires room { length into.old.bits + len ≤ into.old.capacity }
        requires clear { let tx = ⟦<Sender<S, B> as Tx>⟧ in
            StandsClear tx.meaning tx.stands_at self.old (plan_in clock.now G.takes) len (F.inputs feed.old) }
        ensures appended { Appends into.old into.new len result }
        ensures made { let tx = ⟦<Sender<S, B> as Tx>⟧ in OnOk result
            (MakesNextAll tx.meaning tx.says tx.stands_at tx.stands_for self.old self.new (plan_in clock.now G.takes) len
            (gained into.old into.new) (F.inputs feed.old) (F.inputs feed.new)) }
        ensures halts { let tx = ⟦<Sender<S, B> as Tx>⟧ in OnErr result
            (HaltsNext tx.meaning tx.stands_at self.old (plan_in clock.now G.takes) len (F.inputs feed.old) (F.inputs feed.new)) }
        ensures told { TellsNone G.SlipLog log.old log.new }
        ensures running { self.new.stopped ≡ self.old.stopped }
        ensures fed { DrawsClear F.Feed feed.old feed.new result }
        ensures kept { let tx = ⟦<Sender<S, B> as Tx>⟧ in IsKept tx.meaning tx.says self.old self.new }
    {
        let say = said(self.at.slot, self.say, self.next_say);
        let at = Piece {
            path: self.path,
            frame: self.at.frame,
            slot: self.at.slot,
            len,
        };
        let odd = self
            .body
            .piece(at, &say, self.at.last_odd, clock, feed, log, into)?;
        let last = (at.slot as usize + len - 1) as u32;
        self.say = say;
        self.at = moved::<S>(self.at, last, self.at.is_odd ^ odd);
        Ok(())
    }

    // Makes the next bits, so many, in whose way nothing stands and which bring no slip, and appends them to `into`: within a frame as
    // its piece, and else from what the children make before.
    fn batch<F: Feed, G: SlipLog>(
        &mut self,
        clock: &Schedule,
        feed: &mut F,
        log: &mut G,
        count: usize,
        into: &mut Packed,
    ) -> Result<(), Failed>
        requires fed { AreFedBelow S.shape self.old.path (B.meanings self.old.body) clock.now (F.inputs feed.old) }
        requires few { AreSomeUpTo (batch * S.LEN) count }
        requires room { length into.old.bits + count ≤ into.old.capacity }
        requires clear { let tx = ⟦<Sender<S, B> as Tx>⟧ in
            StandsClear tx.meaning tx.stands_at self.old (plan_in clock.now G.takes) count (F.inputs feed.old) }
        ensures appended { Appends into.old into.new count result }
        ensures made { let tx = ⟦<Sender<S, B> as Tx>⟧ in OnOk result
            (MakesNextAll tx.meaning tx.says tx.stands_at tx.stands_for self.old self.new (plan_in clock.now G.takes) count
            (gained into.old into.new) (F.inputs feed.old) (F.inputs feed.new)) }
        ensures halts { let tx = ⟦<Sender<S, B> as Tx>⟧ in OnErr result
            (HaltsNext tx.meaning tx.stands_at self.old (plan_in clock.now G.takes) count (F.inputs feed.old) (F.inputs feed.new)) }
        ensures told { TellsNone G.SlipLog log.old log.new }
        ensures running { self.new.stopped ≡ self.old.stopped }
        ensures fed { DrawsClear F.Feed feed.old feed.new result }
        ensures kept { let tx = ⟦<Sender<S, B> as Tx>⟧ in IsKept tx.meaning tx.says self.old self.new }
    {
        if count <= (S::LEN - self.at.slot) as usize {
            return self.piece(clock, feed, log, count, into);
        }
        self.make_gathered(clock, feed, log, count, into)
    }

    // Makes them from bits that the children make before.
    fn make_gathered<F: Feed, G: SlipLog>(
        &mut self,
        clock: &Schedule,
        feed: &mut F,
        log: &mut G,
        count: usize,
        into: &mut Packed,
    ) -> Result<(), Failed>
        requires fed { AreFedBelow S.shape self.old.path (B.meanings self.old.body) clock.now (F.inputs feed.old) }
        requires few { AreSomeUpTo (batch * S.LEN) count }
        requires room { length into.old.bits + count ≤ into.old.capacity }
        requires clear { let tx = ⟦<Sender<S, B> as Tx>⟧ in
            StandsClear tx.meaning tx.stands_at self.old (plan_in clock.now G.takes) count (F.inputs feed.old) }
        ensures appended { Appends into.old into.new count result }
        ensures made { let tx = ⟦<Sender<S, B> as Tx>⟧ in OnOk result
            (MakesNextAll tx.meaning tx.says tx.stands_at tx.stands_for self.old self.new (plan_in clock.now G.takes) count
            (gained into.old into.new) (F.inputs feed.old) (F.inputs feed.new)) }
        ensures halts { let tx = ⟦<Sender<S, B> as Tx>⟧ in OnErr result
            (HaltsNext tx.meaning tx.stands_at self.old (plan_in clock.now G.takes) count (F.inputs feed.old) (F.inputs feed.new)) }
        ensures told { TellsNone G.SlipLog log.old log.new }
        ensures running { self.new.stopped ≡ self.old.stopped }
        ensures fed { DrawsClear F.Feed feed.old feed.new result }
        ensures kept { let tx = ⟦<Sender<S, B> as Tx>⟧ in IsKept tx.meaning tx.says self.old self.new }
    {
        self.body.gather(
            self.path,
            self.at.frame,
            self.at.slot,
            count,
            clock,
            feed,
            log,
        )?;
        let mut made = 0;
        while made < count {
            let rest = (S::LEN - self.at.slot) as usize;
            let len = rest.min(count - made);
            let say = said(self.at.slot, self.say, self.next_say);
            let at = Piece {
                path: self.path,
                frame: self.at.frame,
                slot: self.at.slot,
                len,
            };
            let odd = self
                .body
                .gathered_piece::<G>(at, &say, self.at.last_odd, clock, into);
            let last = (at.slot as usize + len - 1) as u32;
            self.say = say;
            self.at = moved::<S>(self.at, last, self.at.is_odd ^ odd);
            made += len;
        }
        self.body.scatter();
        Ok(())
    }
}

impl<S: Shape, B: Body<S>> Tx for Sender<S, B> {
    ghost stands_at = { λ n plan x. SenderAt S.shape (B.stands n.body n.path plan) n.at x };

    ghost stands_for = { λ n supply x. SenderFor S.shape (B.holds n.body n.path supply.plan supply) n.path (B.meanings n.body) n.at n.say supply };

    ghost meaning = { λ n. sender_meaning S.shape B.kind n.path (B.meanings n.body) };

    ghost says = { λ n. n.next_say };

    ghost is_stopped = { λ n. n.stopped };

    ghost grows = { λ n. B.grows n.body n.path };

    ghost longer = { λ n. B.longer n.body n.path };

    fn stopped(&self) -> bool {
        self.stopped
    }

    fn next<F: Feed, G: SlipLog>(
        &mut self,
        clock: &Schedule,
        feed: &mut F,
        log: &mut G,
    ) -> Result<bool, TxStop> {
        match self.step(clock, feed, log) {
            Ok(bit) => Ok(bit),
            Err(stop) => {
                self.stopped = true;
                Err(stop)
            }
        }
    }

    fn quiet<F: Feed, G: SlipLog>(&self, clock: &Schedule, feed: &F, most: usize) -> usize {
        self.body
            .quiet::<F, G>(self.path, self.at.frame, self.at.slot, clock, feed, most)
    }

    fn make_clear<F: Feed, G: SlipLog>(
        &mut self,
        clock: &Schedule,
        feed: &mut F,
        log: &mut G,
        count: usize,
        into: &mut Packed,
    ) -> Result<(), Failed> {
        let mut made = 0;
        while made < count {
            let len = (BATCH * S::LEN as usize).min(count - made);
            match self.batch(clock, feed, log, len, into) {
                Ok(()) => made += len,
                Err(Failed) => {
                    self.stopped = true;
                    return Err(Failed);
                }
            }
        }
        Ok(())
    }
}
