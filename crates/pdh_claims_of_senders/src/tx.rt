//! Claims on multiplexers with stores.

ghost use Rattle.std.specs.Prelude.{◌≡◌, ◌<◌, ◌≤◌, ◌+◌, ◌-◌, ◌*◌, ℕ, suc, Bool, false, true, None, Some, [], ◌∷◌, ◌++◌, flat_map, if◌then◌else◌, length, nat_le, slice_get, IfErr, IfOk, IsErr, OnOk};
ghost use Rattle.std.specs.List.{range_with_len, slice_index_or};
ghost use Rattle.pdh_shape.specs.declared.role.Role.TheVariants.{Align, Info, Just};
ghost use Rattle.pdh_shape.specs.OwnNumbers.{lead};
ghost use Rattle.pdh_shape.specs.Tributary.{reads_below, reads_from, turned};
ghost use Rattle.pdh_runs.specs.Pieces.{overhead_before, row};
ghost use Rattle.pdh_tx.specs.Passing.{carried_in};
ghost use Rattle.pdh_tx.specs.Gathered.{IsLeftOver};
ghost use Rattle.pdh_line.specs.Edits.{edited};
ghost use Rattle.pdh_line.specs.Progress.{arrived};
ghost use Rattle.pdh_line.specs.Sending.{arrived_in, arrives_at, carriage, carriage_of, came_before, odd_before};
ghost use Rattle.pdh_slips.specs.Logs.{slip_at};
ghost use Rattle.pdh_tx.specs.declared.tx.TxStop.TheVariants.{NoFrame};
ghost use Rattle.pdh_tx.specs.Meaning.{Supply, Plan, is_failed, mode_of, plan_in, plan_of};
ghost use Rattle.pdh_tx.specs.Held.{first_some, gone_with, put_with, some_if};
ghost use Rattle.pdh_tx.specs.Calls.{IsFed, IsPieceOf, StandsBy};
ghost use Rattle.pdh_tx.specs.Node.{AllFit, IsDecided, arrivals, below, came_at, leads, place_at, reads, slips_below, steps, taken_to};
ghost use Rattle.pdh_tx.specs.Slipping.{arrived_to, read_to, slips_over, slips_under};
ghost use Rattle.pdh_tx.specs.Tributary.{share_in, child_in, store_in};
ghost use Rattle.pdh_tx.specs.Tributaries.{AreFed, HaveArrived, HaveDecided, HoldFor, IsClearFor, StandAt, StandBefore, arrivals_stretch, meanings, source_in};

use pdh_clock::Schedule;
use pdh_edge::{Failed, Feed};
use pdh_packed::Packed;
use pdh_runs::Layout;
use pdh_shape::{Path, Service, Shape};
use pdh_slips::SlipLog;
use pdh_tx::{
    Body, Decisions, Piece, Queue, Sender, Tributaries, Tx, TxStop, carried, overhead_of,
    write_overhead,
};

/// In a piece of a frame each child makes as many bits as arrive in it.
pub fn arrivals_of_a_piece_from_the_frames_start<S: Shape, C: Tx, F: Feed, G: SlipLog>(
    ts: &mut Tributaries<S, C>,
    at: Piece,
    say: &Service,
    odd: bool,
    clock: &Schedule,
    feed: &mut F,
    log: &mut G,
    into: &mut Packed,
) -> Result<bool, Failed>
    requires piece { IsPieceOf S.LEN at.slot at.len }
    requires room { length into.old.bits + at.len ≤ into.old.capacity }
    requires fed { AreFed ts.old at.path clock.now (F.inputs feed.old) }
    requires placed { StandBefore ts.old at.path (plan_in clock.now G.takes) at.frame at.slot }
    requires clear { IsClearFor ts.old (plan_in clock.now G.takes) at (F.inputs feed.old) }
    ensures { OnOk result ((j : ℕ) (w : _) → slice_get ts.new.list.items j ≡ Some w
        → C.stands_at (child_in w) (plan_in clock.now G.takes) (came_before S.shape ((plan_in clock.now G.takes).counts at.path j) at.frame (at.slot + at.len))) }
{
    ts.piece(at, say, odd, clock, feed, log, into)
}

/// While a frame lasts, its decision on each tributary is that of its beginning.
pub fn decides_until_the_frames_end<S: Shape, C: Tx, F: Feed, G: SlipLog>(
    ts: &mut Tributaries<S, C>,
    path: Path,
    frame: u64,
    slot: u32,
    say: &Service,
    odd: bool,
    clock: &Schedule,
    feed: &mut F,
    log: &mut G,
) -> Result<bool, TxStop>
    requires slot { slot < S.LEN }
    requires fed { AreFed ts.old path clock.now (F.inputs feed.old) }
    requires placed { StandBefore ts.old path (plan_in clock.now G.takes) frame slot }
    ensures { OnOk result ((j : ℕ) (w : _) → slice_get ts.new.list.items j ≡ Some w
        → (share_in w).more ≡ (carriage (mode_of G.takes) S.shape j ((plan_in clock.now G.takes).counts path j)).more frame) }
{
    ts.bit(path, frame, slot, say, odd, clock, feed, log)
}

/// A multiplexer that has met an error is stopped, and one that hasn't isn't.
pub fn goes_on_after_a_stop<T: Tx, F: Feed, G: SlipLog>(
    sender: &mut T,
    clock: &Schedule,
    feed: &mut F,
    log: &mut G,
) -> (bool, bool)
    requires running { T.is_stopped sender.old ≡ false }
    requires fed { IsFed (T.meaning sender.old) clock.now (F.inputs feed.old) }
    requires stands { StandsBy T.stands_at sender.old (plan_in clock.now G.takes) }
    ensures { result.0 ≡ result.1 }
{
    let failed = sender.next(clock, feed, log).is_err();
    (failed, sender.stopped())
}

/// What came into a store is its lead and what arrived: so much was read of it or stands in it.
pub fn lead_one_bit_short<S: Shape, C: Tx, F: Feed, G: SlipLog>(
    ts: &mut Tributaries<S, C>,
    path: Path,
    frame: u64,
    slot: u32,
    say: &Service,
    odd: bool,
    clock: &Schedule,
    feed: &mut F,
    log: &mut G,
) -> Result<bool, TxStop>
    requires slot { slot < S.LEN }
    requires fed { AreFed ts.old path clock.now (F.inputs feed.old) }
    requires placed { StandBefore ts.old path (plan_in clock.now G.takes) frame slot }
    ensures { OnOk result ((j : ℕ) (w : _) → slice_get ts.new.list.items j ≡ Some w
        → let plan = plan_in clock.now G.takes in let out = read_to S.shape path plan frame (suc slot) j in
        gone_with out.edits out.read + length (store_in w)
        ≡ put_with out.edits (lead + arrived (plan.counts path j) frame + arrived_in S.shape (plan.counts path j frame) (suc slot))) }
{
    ts.bit(path, frame, slot, say, odd, clock, feed, log)
}

/// What stands in the way of a line's first bit is looked for in order: its frame, the leads, the arrivals and the read.
pub fn leads_taken_after_the_arrivals<S: Shape, C: Tx, F: Feed, G: SlipLog>(
    ts: &mut Tributaries<S, C>,
    path: Path,
    say: &Service,
    odd: bool,
    clock: &Schedule,
    feed: &mut F,
    log: &mut G,
) -> Result<bool, TxStop>
    requires fed { AreFed ts.old path clock.now (F.inputs feed.old) }
    requires placed { StandBefore ts.old path (plan_in clock.now G.takes) 0 0 }
    ensures { IfErr result (λ stop. is_failed stop ≡ false
        → let plan = plan_in clock.now G.takes in (size : ℕ → ℕ) → AllFit (meanings ts.old) plan (taken_to S.shape path plan 0 0) (F.inputs feed.old) size
        → first_some ((some_if (nat_le (plan.frames path) 0) (NoFrame path) ∷ leads S.shape plan (meanings ts.old) size)
        ++ (arrivals S.shape path plan (meanings ts.old) size 0 0 ++ reads S.shape path plan 0 0)) ≡ Some stop) }
{
    ts.bit(path, 0, 0, say, odd, clock, feed, log)
}

/// The bits that a piece of a frame doesn't carry stand in the stores behind it.
pub fn left_over_bits_not_put_back<S: Shape, C: Tx, F: Feed, G: SlipLog>(
    ts: &mut Tributaries<S, C>,
    at: Piece,
    say: &Service,
    odd: bool,
    clock: &Schedule,
    feed: &mut F,
    log: &mut G,
    into: &mut Packed,
) -> Result<bool, Failed>
    requires piece { IsPieceOf S.LEN at.slot at.len }
    requires room { length into.old.bits + at.len ≤ into.old.capacity }
    requires fed { AreFed ts.old at.path clock.now (F.inputs feed.old) }
    requires placed { StandBefore ts.old at.path (plan_in clock.now G.takes) at.frame at.slot }
    requires clear { IsClearFor ts.old (plan_in clock.now G.takes) at (F.inputs feed.old) }
    ensures { OnOk result ((j : ℕ) (w : _) → slice_get ts.new.list.items j ≡ Some w
        → let plan = plan_in clock.now G.takes in let out = read_to S.shape at.path plan at.frame (at.slot + at.len) j in
        gone_with out.edits out.read + length (store_in w)
        ≡ put_with out.edits (came_before S.shape (plan.counts at.path j) at.frame (at.slot + at.len))) }
{
    ts.piece(at, say, odd, clock, feed, log, into)
}

/// Of all bits that were gathered of a tributary those that aren't carried stand in its store behind the last piece.
pub fn left_over_queue_not_put_back<S: Shape, C: Tx>(ts: &mut Tributaries<S, C>)
    requires left { (j : ℕ) → IsLeftOver ts.old j }
    ensures { (j : ℕ) (w queue : _) → slice_get ts.new.list.items j ≡ Some w → slice_get ts.new.queues.items j ≡ Some queue
        → queue.gone + length (store_in w) ≡ length queue.bits.bits }
{
    ts.scatter_all()
}

/// The bit of an information slot is the next one of its tributary, with what slips did to it, and turned where the line has it
/// so: it is nothing that the store tells by its fill.
pub fn line_bits_not_turned<S: Shape, C: Tx, G: SlipLog>(
    ts: &mut Tributaries<S, C>,
    path: Path,
    frame: u64,
    slot: u32,
    say: &Service,
    odd: bool,
    log: &mut G,
) -> Result<bool, TxStop>
    requires { slot < S.LEN }
    ensures { IfOk result (λ bit. (supply : Supply) (j : ℕ) → S.shape.role slot ≡ Info j → supply.plan.mode ≡ mode_of G.takes
        → HaveArrived ts.old path supply.plan frame slot → IsDecided share_in S.shape path supply.plan frame ts.old.list.items
        → supply.says frame ≡ say.now → odd ≡ odd_before S.shape (source_in ts.old path supply) frame
        → HoldFor ts.old (below supply) (came_at S.shape path supply.plan frame (suc slot)) (arrived_to S.shape path supply.plan frame slot)
        → let source = source_in ts.old path supply in let c = carriage_of S.shape source j in
        bit ≡ turned (S.shape.inverted j) (edited (c.edits frame (suc slot)) (source.inputs j) (c.sent frame + reads_below S.shape j (c.more frame) slot))) }
{
    ts.slot_bit(path, frame, slot, say, odd, log)
}

/// A line goes on only where the log has counted no fault.
pub fn log_failure_goes_on<T: Tx, F: Feed, G: SlipLog>(
    sender: &mut T,
    clock: &Schedule,
    feed: &mut F,
    log: &mut G,
) -> Result<bool, TxStop>
    requires running { T.is_stopped sender.old ≡ false }
    requires fed { IsFed (T.meaning sender.old) clock.now (F.inputs feed.old) }
    requires stands { StandsBy T.stands_at sender.old (plan_in clock.now G.takes) }
    ensures { OnOk result (G.log_faults log.new ≡ G.log_faults log.old) }
{
    sender.next(clock, feed, log)
}

/// Behind the frames that are scheduled no frame begins.
pub fn one_frame_too_many<S: Shape, C: Tx, F: Feed, G: SlipLog>(
    ts: &mut Tributaries<S, C>,
    path: Path,
    frame: u64,
    say: &Service,
    odd: bool,
    clock: &Schedule,
    feed: &mut F,
    log: &mut G,
) -> Result<bool, TxStop>
    requires behind { (plan_of clock.now).frames path ≡ frame }
    requires fed { AreFed ts.old path clock.now (F.inputs feed.old) }
    requires placed { StandBefore ts.old path (plan_in clock.now G.takes) frame 0 }
    ensures { IsErr result }
{
    ts.bit(path, frame, 0, say, odd, clock, feed, log)
}

/// A bit is made only where nothing stands in its way, as an arrival at a full store does.
pub fn passes_over_the_first_event<S: Shape, C: Tx, F: Feed, G: SlipLog>(
    ts: &mut Tributaries<S, C>,
    path: Path,
    frame: u64,
    slot: u32,
    say: &Service,
    odd: bool,
    clock: &Schedule,
    feed: &mut F,
    log: &mut G,
) -> Result<bool, TxStop>
    requires slot { slot < S.LEN }
    requires fed { AreFed ts.old path clock.now (F.inputs feed.old) }
    requires placed { StandBefore ts.old path (plan_in clock.now G.takes) frame slot }
    ensures { OnOk result (let plan = plan_in clock.now G.takes in (size : ℕ → ℕ)
        → AllFit (meanings ts.old) plan (taken_to S.shape path plan frame slot) (F.inputs feed.old) size
        → first_some (steps S.shape path plan (meanings ts.old) size frame slot) ≡ None) }
{
    ts.bit(path, frame, slot, say, odd, clock, feed, log)
}

/// Nothing stands in the way of the bits that are called quiet, to the last of them: no event of a store, and nothing below.
pub fn quiet_one_bit_too_far<S: Shape, C: Tx, F: Feed, G: SlipLog>(
    ts: &Tributaries<S, C>,
    path: Path,
    frame: u64,
    slot: u32,
    clock: &Schedule,
    feed: &F,
    most: usize,
) -> usize
    requires slot { slot < S.LEN }
    requires fed { AreFed ts.now path clock.now (F.inputs feed.now) }
    requires placed { StandBefore ts.now path (plan_in clock.now G.takes) frame slot }
    ensures { let plan = plan_in clock.now G.takes in (size : ℕ → ℕ)
        → AllFit (meanings ts.now) plan (taken_to S.shape path plan frame slot) (F.inputs feed.now) size → (m u : ℕ) → u < S.shape.len
        → frame * S.shape.len + slot ≤ m * S.shape.len + u → m * S.shape.len + u < frame * S.shape.len + slot + result
        → first_some (steps S.shape path plan (meanings ts.now) size m u) ≡ None }
{
    ts.quiet::<F, G>(path, frame, slot, clock, feed, most)
}

/// A slot that carries a bit of a tributary has the next one that isn't carried yet of those that stand in its queue.
pub fn queue_read_from_its_start<S: Shape>(
    queue: &mut Queue,
    trib: u8,
    more: bool,
    arriving: usize,
    layout: &Layout<S>,
    first: u32,
    len: usize,
    column: &mut Packed,
)
    requires trib { trib < S.TRIBS }
    requires inside { first + len ≤ S.LEN }
    requires held { queue.old.gone + queue.old.fill + arriving ≤ length queue.old.bits.bits }
    requires enough { carried_in S.shape trib more first len ≤ queue.old.fill + arriving }
    requires room { S.LOW + 1 ≤ column.old.capacity }
    ensures { (v i : ℕ) → v < len → reads_from trib more (S.shape.role (first + v)) ≡ true
        → reads_below S.shape trib more first + i ≡ reads_below S.shape trib more (first + v)
        → slice_index_or column.new.bits (row S.shape first v) false ≡ turned (S.shape.inverted trib) (slice_index_or queue.old.bits.bits (queue.old.gone + i) false) }
{
    queue.pass(trib, more, arriving, layout, first, len, column)
}

/// What is given for the next frame doesn't change what is said in the frame in progress.
pub fn service_bits_at_once<S: Shape, B: Body<S>>(sender: &mut Sender<S, B>, say: Service)
    ensures next { ⟦<Sender<S, B> as Tx>⟧.says sender.new ≡ say }
    ensures now { (supply : Supply) (x : ℕ) → ⟦<Sender<S, B> as Tx>⟧.stands_for sender.old supply x
        → ⟦<Sender<S, B> as Tx>⟧.stands_for sender.new supply x }
{
    sender.set(say);
}

/// The seventh tributary, as all others, has taken what arrives in a slot.
pub fn seventh_tributary_left_out<S: Shape, C: Tx, F: Feed, G: SlipLog>(
    ts: &mut Tributaries<S, C>,
    path: Path,
    frame: u64,
    slot: u32,
    say: &Service,
    odd: bool,
    clock: &Schedule,
    feed: &mut F,
    log: &mut G,
) -> Result<bool, TxStop>
    requires slot { slot < S.LEN }
    requires fed { AreFed ts.old path clock.now (F.inputs feed.old) }
    requires placed { StandBefore ts.old path (plan_in clock.now G.takes) frame slot }
    ensures { OnOk result ((w : _) → slice_get ts.new.list.items 6 ≡ Some w
        → C.stands_at (child_in w) (plan_in clock.now G.takes) (came_before S.shape ((plan_in clock.now G.takes).counts path 6) frame (suc slot))) }
{
    ts.bit(path, frame, slot, say, odd, clock, feed, log)
}

/// A store that overflows where a bit arrives tells so once, with the slot, behind what its child tells.
pub fn slip_told_twice<S: Shape, C: Tx, F: Feed, G: SlipLog>(
    ts: &mut Tributaries<S, C>,
    path: Path,
    frame: u64,
    slot: u32,
    clock: &Schedule,
    feed: &mut F,
    log: &mut G,
) -> Result<(), TxStop>
    requires slot { slot < S.LEN }
    requires decided { HaveDecided ts.old path (plan_in clock.now G.takes) frame }
    requires fed { AreFed ts.old path clock.now (F.inputs feed.old) }
    requires placed { StandAt ts.old (arrivals_stretch ts.old path (plan_in clock.now G.takes) frame slot S.TRIBS) }
    ensures { OnOk result (let plan = plan_in clock.now G.takes in G.logged log.old (flat_map (λ j.
        (if arrives_at S.shape (plan.counts path j frame) slot
        then slips_below (slice_get (meanings ts.old) j) plan (came_before S.shape (plan.counts path j) frame slot)
        ++ (if slips_over S.shape path plan frame slot j then slip_at true (place_at path j frame slot) ∷ [] else [])
        else [])) (range_with_len 0 S.shape.tribs)) log.new) }
{
    ts.take_arrivals(path, frame, slot, clock, feed, log)
}

/// A slot that carries no additional bit of a tributary in its justifiable slot is a one.
pub fn stuffed_slot_inverted<S: Shape, D: Decisions>(
    slot: u32,
    say: &Service,
    odd: bool,
    decisions: &D,
) -> bool
    requires { slot < S.LEN }
    ensures { (j : ℕ) → S.shape.role slot ≡ Just j → result ≡ true }
{
    overhead_of::<S, D>(S::role(slot), say, odd, decisions)
}

/// A slot of the alignment signal has the bit that its own role names, whatever the next such slot has.
pub fn role_of_the_neighbouring_slot<S: Shape, D: Decisions>(
    layout: &Layout<S>,
    at: Piece,
    say: &Service,
    odd: bool,
    decisions: &D,
    into: &mut Packed,
)
    requires inside { at.slot + at.len ≤ S.LEN }
    requires room { S.LEN ≤ into.old.capacity }
    ensures { (v : ℕ) (signal : Bool) → v < at.len → S.shape.role (at.slot + v) ≡ Align signal
        → slice_index_or into.new.bits (overhead_before S.shape (at.slot + v) - overhead_before S.shape at.slot) false ≡ signal }
{
    write_overhead::<S, D>(layout, at, say, odd, decisions, into);
}

/// An information slot carries a bit of the tributary that its role names.
pub fn tributaries_one_after_another<S: Shape, D: Decisions>(slot: u32, decisions: &D) -> Option<u8>
    requires { slot < S.LEN }
    ensures { (j : ℕ) → S.shape.role slot ≡ Info j → result ≡ Some j }
{
    carried::<S, D>(slot, decisions)
}

/// A store that is empty where a slot reads it tells an underflow, of its tributary and the slot.
pub fn underflow_told_as_overflow<S: Shape, C: Tx, G: SlipLog>(
    ts: &mut Tributaries<S, C>,
    path: Path,
    frame: u64,
    slot: u32,
    say: &Service,
    odd: bool,
    log: &mut G,
) -> Result<bool, TxStop>
    requires { slot < S.LEN }
    ensures { (plan : Plan) → plan.mode ≡ mode_of G.takes → IsDecided share_in S.shape path plan frame ts.old.list.items
        → HaveArrived ts.old path plan frame slot
        → OnOk result (G.logged log.old (flat_map (λ j. (if slips_under S.shape path plan frame slot j
        then record { over = false; place = record { path = path; trib = j + 1; frame = frame; slot = slot } } ∷ [] else [])) (range_with_len 0 S.shape.tribs)) log.new) }
{
    ts.slot_bit(path, frame, slot, say, odd, log)
}
