//! A tributary of a multiplexer: its child, its elastic store, and its share of the frame.

ghost use Rattle.std.specs.Prelude.{◌≡◌, ◌+◌, ◌<◌, ◌≤◌, ◌==◌, [], ◌∷◌, true, false, OnOk, OnErr, IfOk, IfErr, length, nat_le};
ghost use Rattle.pdh_shape.specs.OwnNumbers.{lead, threshold, store_size};
ghost use Rattle.pdh_tx.specs.Meaning.{mode_of, plan_in};
ghost use Rattle.pdh_tx.specs.Calls.{Draws, DrawsClear, HasRoomFor, HasSameRoom, IsFed};
ghost use Rattle.pdh_tx.specs.Tributary.{plain_placed_in, meaning_in, DropsHalf, HasRoomIn, AddsHalf, LeavesBit, LeavesNone, TellsOwn, KeepsShare, StandsIn, TakesNext, StopsAtNext, TellsArrival, TakesLead, StopsInLead, TellsLead};
ghost use Rattle.pdh_tx.specs.declared.tx.TxStop.TheVariants.{LogFailed};
ghost use Rattle.pdh_tx.specs.Telling.{Tells, TellsNone};
ghost use Rattle.pdh_slips.specs.Logs.{slip_at};
ghost use Rattle.pdh_tx.specs.Passing.{PassesFreely, PassesColumn, HaltsPassing};
ghost use Rattle.pdh_tx.specs.Gathered.{GathersFreely, GathersAll, IsAllCarried, waiting_in};

use crate::queue::Queue;
use crate::{Tx, TxStop};
use pdh_clock::Schedule;
use pdh_edge::{Failed, Feed};
use pdh_packed::Packed;
use pdh_runs::Layout;
use pdh_shape::{LEAD, Place, STORE_SIZE, Shape, THRESHOLD};
use pdh_slips::SlipLog;
use pdh_store::Store;

/// What a frame brings and carries of a tributary.
#[derive(Clone, Copy, Debug, PartialEq, Eq)]
pub struct FrameShare {
    /// How many bits arrive in the frame.
    pub arriving: u32,
    /// Whether the frame carries an additional bit.
    pub more: bool,
}

/// A tributary of a multiplexer.
#[derive(Drop)]
pub struct Tributary<C: Tx> {
    /// What makes its bits.
    pub child: C,
    /// The bits that it gave and that the line hasn't carried.
    pub store: Store,
    /// What the frame in progress brings and carries of it.
    pub share: FrameShare,
}

// Tells a log that takes slips of one.
fn tell<G: SlipLog>(log: &mut G, over: bool, place: &Place) -> Result<(), TxStop>
    requires { G.takes ≡ true }
    ensures stop { IfErr result (λ stop. stop ≡ LogFailed) }
    ensures told { Tells G.SlipLog log.old log.new (slip_at over place.now ∷ []) result }
{
    match log.slip(over, place) {
        Ok(()) => Ok(()),
        Err(Failed) => Err(TxStop::LogFailed),
    }
}

impl<C: Tx> Tributary<C> {
    /// Takes the child's next bit into the store. A full store slips first, where the log takes slips.
    #[inline(always)]
    pub fn arrive<F: Feed, G: SlipLog>(
        &mut self,
        place: Place,
        clock: &Schedule,
        feed: &mut F,
        log: &mut G,
    ) -> Result<(), TxStop>
        requires fed { IsFed (meaning_in C.Tx self.old) clock.now (F.inputs feed.old) }
        requires placed { StandsIn C.Tx self.old (plan_in clock.now G.takes) }
        ensures ok { OnOk result (TakesNext C.Tx self.old self.new (plan_in clock.now G.takes) place
            (F.inputs feed.old) (F.inputs feed.new)) }
        ensures err { IfErr result (λ stop. StopsAtNext C.Tx self.old (plan_in clock.now G.takes) place stop
            (F.inputs feed.old) (F.inputs feed.new) (F.feed_faults feed.old) (F.feed_faults feed.new)) }
        ensures told { TellsArrival C.Tx self.old (plan_in clock.now G.takes) place G.SlipLog log.old log.new result }
        ensures fed { Draws F.Feed feed.old feed.new result }
        ensures kept { KeepsShare C.Tx self.old self.new }
        ensures store { G.takes ≡ false → OnErr result (self.new.store ≡ self.old.store) }
    {
        let bit = self.child.next(clock, feed, log)?;
        self.make_room(&place, log)?;
        match self.store.arrive(bit) {
            Ok(()) => Ok(()),
            Err(_) => Err(TxStop::Overflow(place)),
        }
    }

    // Lets a full store slip before a bit arrives, where the log takes slips: the oldest half of its bits is dropped, and the log
    // is told.
    fn make_room<G: SlipLog>(&mut self, place: &Place, log: &mut G) -> Result<(), TxStop>
        ensures dropped { OnOk result (DropsHalf self.old self.new (mode_of G.takes)) }
        ensures room { OnOk result (HasRoomIn self.new (mode_of G.takes)) }
        ensures stop { IfErr result (λ stop. stop ≡ LogFailed) }
        ensures told { TellsOwn G.SlipLog log.old log.new (mode_of G.takes) (nat_le store_size (length self.old.store)) true place.now result }
        ensures child { self.new.child ≡ self.old.child }
        ensures share { self.new.share ≡ self.old.share }
        ensures store { G.takes ≡ false → self.new.store ≡ self.old.store }
    {
        if !log.takes() {
            return Ok(());
        }
        if (self.store.fill() as usize) < STORE_SIZE {
            return Ok(());
        }
        self.store.drop_half();
        tell(log, true, place)
    }

    /// Takes the child's next bits, so many, and puts those that a piece of a frame carries, of so
    /// many slots from `first` on, into its column; the others stand in the store. Nothing stands in
    /// the way.
    #[inline(always)]
    pub fn pass<S: Shape, F: Feed, G: SlipLog>(
        &mut self,
        trib: u8,
        arriving: usize,
        layout: &Layout<S>,
        first: u32,
        len: usize,
        clock: &Schedule,
        feed: &mut F,
        log: &mut G,
        queue: &mut Packed,
        column: &mut Packed,
    ) -> Result<(), Failed>
        requires fed { IsFed (meaning_in C.Tx self.old) clock.now (F.inputs feed.old) }
        requires trib { trib < S.TRIBS }
        requires inside { first + len ≤ S.LEN }
        requires room { HasRoomFor (arriving + store_size) (S.LOW + 1) queue.old column.old }
        requires clear { PassesFreely C.Tx S.shape trib first len arriving self.old (plan_in clock.now G.takes) (F.inputs feed.old) }
        ensures ok { OnOk result (PassesColumn C.Tx S.shape trib first len arriving self.old self.new
            column.new.bits (plan_in clock.now G.takes) (F.inputs feed.old) (F.inputs feed.new)) }
        ensures halts { OnErr result (HaltsPassing C.Tx arriving self.old (plan_in clock.now G.takes)
            (F.inputs feed.old) (F.inputs feed.new)) }
        ensures told { TellsNone G.SlipLog log.old log.new }
        ensures fed { DrawsClear F.Feed feed.old feed.new result }
        ensures kept { KeepsShare C.Tx self.old self.new }
        ensures room { HasSameRoom queue.old queue.new column.old column.new }
    {
        let more = self.share.more;
        queue.clear();
        self.store.move_to(queue);
        self.child.make_clear(clock, feed, log, arriving, queue)?;
        let gone = layout.carried(trib, more, first, len);
        layout.fill_column(trib, more, first, len, queue, column);
        self.store.put_from(queue, gone, queue.len() - gone);
        Ok(())
    }

    /// Takes the child's next bits for many frames, so many, into a queue, behind those of the store. So many of them come into
    /// the store at once. Nothing stands in the way.
    pub fn gather<F: Feed, G: SlipLog>(
        &mut self,
        count: usize,
        at_once: usize,
        clock: &Schedule,
        feed: &mut F,
        log: &mut G,
        queue: &mut Queue,
    ) -> Result<(), Failed>
        requires fed { IsFed (meaning_in C.Tx self.old) clock.now (F.inputs feed.old) }
        requires room { count + store_size ≤ queue.old.bits.capacity }
        requires clear { GathersFreely C.Tx self.old (plan_in clock.now G.takes) count (F.inputs feed.old) }
        requires at_once { at_once ≤ count }
        ensures ok { OnOk result (GathersAll C.Tx self.old self.new queue.new (plan_in clock.now G.takes) count at_once
            (F.inputs feed.old) (F.inputs feed.new)) }
        ensures halts { OnErr result (HaltsPassing C.Tx count self.old (plan_in clock.now G.takes)
            (F.inputs feed.old) (F.inputs feed.new)) }
        ensures told { TellsNone G.SlipLog log.old log.new }
        ensures fed { DrawsClear F.Feed feed.old feed.new result }
        ensures kept { KeepsShare C.Tx self.old self.new }
        ensures empty { self.new.store ≡ [] }
        ensures few { queue.new.fill ≤ store_size + at_once }
        ensures room { queue.new.bits.capacity ≡ queue.old.bits.capacity }
    {
        // the sum fits, since a capacity does
        let _fits = queue.bits.capacity();
        queue.bits.clear();
        queue.gone = 0;
        queue.fill = self.store.fill() as usize + at_once;
        self.store.move_to(&mut queue.bits);
        self.child
            .make_clear(clock, feed, log, count, &mut queue.bits)?;
        Ok(())
    }

    /// Takes what is left of a queue into the empty store.
    pub fn scatter(&mut self, queue: &Queue)
        requires empty { self.old.store ≡ [] }
        requires all { IsAllCarried queue.now }
        requires few { queue.now.fill ≤ store_size }
        ensures store { self.new.store ≡ waiting_in queue.now }
        ensures child { self.new.child ≡ self.old.child }
        ensures share { self.new.share ≡ self.old.share }
    {
        self.store.put_from(&queue.bits, queue.gone, queue.fill);
    }

    /// Takes the child's first bits, which stand in the store before the first frame.
    pub fn lead<F: Feed, G: SlipLog>(
        &mut self,
        place: Place,
        clock: &Schedule,
        feed: &mut F,
        log: &mut G,
    ) -> Result<(), TxStop>
        requires fed { IsFed (meaning_in C.Tx self.old) clock.now (F.inputs feed.old) }
        requires placed { plain_placed_in C.Tx self.old (plan_in clock.now G.takes) 0 0 }
        ensures ok { OnOk result (TakesLead C.Tx self.old self.new (plan_in clock.now G.takes)
            (F.inputs feed.old) (F.inputs feed.new)) }
        ensures err { IfErr result (λ stop. StopsInLead C.Tx self.old (plan_in clock.now G.takes) stop
            (F.inputs feed.old) (F.inputs feed.new) (F.feed_faults feed.old) (F.feed_faults feed.new)) }
        ensures told { TellsLead C.Tx self.old (plan_in clock.now G.takes) G.SlipLog log.old log.new result }
        ensures fed { Draws F.Feed feed.old feed.new result }
        ensures kept { KeepsShare C.Tx self.old self.new }
    {
        for _taken in 0..LEAD {
            self.arrive(place, clock, feed, log)?;
        }
        Ok(())
    }

    /// Decides, at the start of a frame in which so many bits arrive, whether it carries an
    /// additional bit.
    pub fn decide(&mut self, arriving: u32)
        ensures child { self.new.child ≡ self.old.child }
        ensures store { self.new.store ≡ self.old.store }
        ensures share { self.new.share ≡ record { arriving = arriving; more = nat_le threshold (length self.old.store) } }
    {
        let more = self.store.carries_more();
        self.share = FrameShare { arriving, more };
    }

    /// The same, where the bits of the store stand in a queue, and are so many.
    pub fn decide_by(&mut self, arriving: u32, fill: usize)
        ensures child { self.new.child ≡ self.old.child }
        ensures store { self.new.store ≡ self.old.store }
        ensures share { self.new.share ≡ record { arriving = arriving; more = nat_le threshold fill } }
    {
        let more = fill >= THRESHOLD as usize;
        self.share = FrameShare { arriving, more };
    }

    /// Takes the oldest bit out of the store. An empty store slips first, where the log takes slips: ones are put into it, half of
    /// what it may hold, and the log is told.
    pub fn leave<G: SlipLog>(&mut self, place: Place, log: &mut G) -> Result<bool, TxStop>
        ensures bit { IfOk result (LeavesBit C.Tx self.old self.new (mode_of G.takes)) }
        ensures stop { IfErr result (LeavesNone self.old (mode_of G.takes) place) }
        ensures told { TellsOwn G.SlipLog log.old log.new (mode_of G.takes) (length self.old.store == 0) false place result }
        ensures child { self.new.child ≡ self.old.child }
        ensures share { self.new.share ≡ self.old.share }
    {
        self.make_ones(&place, log)?;
        match self.store.leave() {
            Ok(bit) => Ok(bit),
            Err(_) => Err(TxStop::Underflow(place)),
        }
    }

    // Lets an empty store slip before a bit of it is read, where the log takes slips: ones are put in, half of what it may hold, and
    // the log is told.
    fn make_ones<G: SlipLog>(&mut self, place: &Place, log: &mut G) -> Result<(), TxStop>
        ensures ones { OnOk result (AddsHalf self.old self.new (mode_of G.takes)) }
        ensures stop { IfErr result (λ stop. stop ≡ LogFailed) }
        ensures told { TellsOwn G.SlipLog log.old log.new (mode_of G.takes) (length self.old.store == 0) false place.now result }
        ensures child { self.new.child ≡ self.old.child }
        ensures share { self.new.share ≡ self.old.share }
    {
        if !log.takes() {
            return Ok(());
        }
        if self.store.fill() > 0 {
            return Ok(());
        }
        self.store.add_half();
        tell(log, false, place)
    }
}
