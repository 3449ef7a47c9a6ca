//! Of a chain's line that is made and taken apart, and of its sender and its receiver.

ghost use Rattle.std.specs.Prelude.{◌≡◌, ◌<◌, ◌≤◌, ◌*◌, ◌++◌, ◌^◌, ℕ, suc, Bool, true, List, [], ◌∷◌, Some, take, OnOk, IfOk, IfErr, IfSome};
ghost use Rattle.pdh_cbit.specs.Feac.{feac_bit};
ghost use Rattle.pdh_clock.specs.Contents.{counts, frame_count};
ghost use Rattle.pdh_events.specs.Chain.{chain_events};
ghost use Rattle.pdh_line.specs.Events.{Event};
ghost use Rattle.pdh_line.specs.Paths.{top};
ghost use Rattle.pdh_line.specs.Sending.{front};
ghost use Rattle.pdh_nesting.specs.Chains.{width, top_len};
ghost use Rattle.pdh_nesting.specs.Events.{first_event};
ghost use Rattle.pdh_nesting.specs.Sending.{chain_line};
ghost use Rattle.pdh_shape.specs.declared.place.Path.{Path};
ghost use Rattle.pdh_shape.specs.declared.place.Place.{Place};
ghost use Rattle.pdh_tx.specs.Meaning.{mode_of, plan_in};
ghost use Rattle.pdh_tx.specs.declared.tx.TxStop.TheVariants.{NoFrame as LacksFrames, Ended as LeafEnds};
ghost use Rattle.pdh_chain.specs.Calls.{AreFew, IsChainOf, IsLinkedTo, IsPortFor};
ghost use Rattle.pdh_chain.specs.Muxes.{bits_of, is_overflow};
ghost use Rattle.pdh_chain.specs.Saying.{idle_with, says_of};
ghost use Rattle.pdh_chain.specs.Trees.{sender_of, receiver_of};
ghost use Rattle.pdh_chain.specs.declared.stop.MuxStop.TheVariants.{Ended, Event as MeetsEvent};

use pdh_chain::{
    ChainRx, ChainTop, ChainTx, DemuxStop, MuxStop, demux_with, mux_with, open_receiver,
    open_sender, receive,
};
use pdh_clock::Schedule;
use pdh_edge::Port;
use pdh_packed::Packed;
use pdh_rx::Rx;
use pdh_shape::Shape;
use pdh_slips::SlipLog;
use pdh_watch::Watch;
use std::alloc::{AllocError, Global};

// ---- a line that is made

/// Where a line is made to its end, all its frames are put.
pub fn one_frame_fewer<T: ChainTop, P: Port, G: SlipLog>(
    alloc: Global,
    clock: &Schedule,
    frames: u64,
    feac: Option<u8>,
    port: &mut P,
    log: &mut G,
) -> Result<(), MuxStop>
    requires chain { IsChainOf T.shapes T.fits clock.now }
    requires scheduled { frames ≤ frame_count clock.now.rows [] }
    requires code { IfSome feac (λ code. code < 64) }
    requires port { IsPortFor (P.fresh port.old) (width T.shapes) (P.inputs port.old).holds (P.outputs port.old).holds }
    ensures { OnOk result ((before : List Bool) → (P.outputs port.old).told 0 ≡ Some before
        → (lists : ℕ → List Bool) × ((P.outputs port.new).told 0 ≡ Some (before ++ front (chain_line (mode_of G.takes) T.shapes
        (counts clock.now.rows) (bits_of lists) (says_of feac) [] 0) (frames * top_len T.shapes)))) }
{
    mux_with::<T, P, G>(alloc, clock, frames, feac, port, log)
}

/// Frame n of a line says bit n of the code that is sent.
pub fn feac_of_the_frame_before<T: ChainTop, P: Port, G: SlipLog>(
    alloc: Global,
    clock: &Schedule,
    frames: u64,
    code: u8,
    port: &mut P,
    log: &mut G,
) -> Result<(), MuxStop>
    requires chain { IsChainOf T.shapes T.fits clock.now }
    requires scheduled { frames ≤ frame_count clock.now.rows [] }
    requires code { code < 64 }
    requires port { IsPortFor (P.fresh port.old) (width T.shapes) (P.inputs port.old).holds (P.outputs port.old).holds }
    ensures { OnOk result ((before : List Bool) → (P.outputs port.old).told 0 ≡ Some before
        → (lists : ℕ → List Bool) × ((P.outputs port.new).told 0 ≡ Some (before ++ front (chain_line (mode_of G.takes) T.shapes
        (counts clock.now.rows) (bits_of lists) (λ n. idle_with (feac_bit code n)) [] 0) (frames * top_len T.shapes)))) }
{
    mux_with::<T, P, G>(alloc, clock, frames, Some(code), port, log)
}

/// Where a leaf ends, whole frames are put alone.
pub fn puts_an_unfinished_frame<T: ChainTop, P: Port, G: SlipLog>(
    alloc: Global,
    clock: &Schedule,
    frames: u64,
    feac: Option<u8>,
    port: &mut P,
    log: &mut G,
) -> Result<(), MuxStop>
    requires chain { IsChainOf T.shapes T.fits clock.now }
    requires scheduled { frames ≤ frame_count clock.now.rows [] }
    requires code { IfSome feac (λ code. code < 64) }
    requires port { IsPortFor (P.fresh port.old) (width T.shapes) (P.inputs port.old).holds (P.outputs port.old).holds }
    ensures { IfErr result (λ stop. (leaf : ℕ) → stop ≡ Ended leaf → (before : List Bool) → (P.outputs port.old).told 0 ≡ Some before
        → (whole : ℕ) × (lists : ℕ → List Bool) × ((P.outputs port.new).told 0 ≡ Some (before ++ front (chain_line (mode_of G.takes) T.shapes
        (counts clock.now.rows) (bits_of lists) (says_of feac) [] 0) (whole * top_len T.shapes)))) }
{
    mux_with::<T, P, G>(alloc, clock, frames, feac, port, log)
}

/// Where a leaf ends, all whole frames that its bits make are put: it ends in the one behind them.
pub fn all_leaves_read_before_the_first_frame<T: ChainTop, P: Port, G: SlipLog>(
    alloc: Global,
    clock: &Schedule,
    frames: u64,
    feac: Option<u8>,
    port: &mut P,
    log: &mut G,
) -> Result<(), MuxStop>
    requires chain { IsChainOf T.shapes T.fits clock.now }
    requires scheduled { frames ≤ frame_count clock.now.rows [] }
    requires code { IfSome feac (λ code. code < 64) }
    requires port { IsPortFor (P.fresh port.old) (width T.shapes) (P.inputs port.old).holds (P.outputs port.old).holds }
    ensures { IfErr result (λ stop. (leaf : ℕ) → stop ≡ Ended leaf → (before : List Bool) → (P.outputs port.old).told 0 ≡ Some before
        → (whole : ℕ) × (made : ℕ) × (lists : ℕ → List Bool)
        × ((P.outputs port.new).told 0 ≡ Some (before ++ front (chain_line (mode_of G.takes) T.shapes
        (counts clock.now.rows) (bits_of lists) (says_of feac) [] 0) (whole * top_len T.shapes)))
        × (made < suc whole * top_len T.shapes)
        × ((sender_of T.shapes top 0).obstacle (plan_in clock.now G.takes) (P.inputs port.old).left made ≡ Some (LeafEnds leaf))) }
{
    mux_with::<T, P, G>(alloc, clock, frames, feac, port, log)
}

/// A line is made to its end only where no node lacks a frame on the way.
pub fn mux_ends_well_though_a_node_lacks_frames<T: ChainTop, P: Port, G: SlipLog>(
    alloc: Global,
    clock: &Schedule,
    frames: u64,
    feac: Option<u8>,
    port: &mut P,
    log: &mut G,
) -> Result<(), MuxStop>
    requires chain { IsChainOf T.shapes T.fits clock.now }
    requires scheduled { frames ≤ frame_count clock.now.rows [] }
    requires code { IfSome feac (λ code. code < 64) }
    requires port { IsPortFor (P.fresh port.old) (width T.shapes) (P.inputs port.old).holds (P.outputs port.old).holds }
    ensures { OnOk result ((x : ℕ) (node : Path) → x < frames * top_len T.shapes
        → (sender_of T.shapes top 0).obstacle (plan_in clock.now G.takes) (P.inputs port.old).left x ≡ Some (LacksFrames node) → ⊥) }
{
    mux_with::<T, P, G>(alloc, clock, frames, feac, port, log)
}

/// Where the stores of a line slip, no event ends it, in its first frame or in a later one.
pub fn plain_mode_at_the_second_frame<T: ChainTop, P: Port, G: SlipLog>(
    alloc: Global,
    clock: &Schedule,
    frames: u64,
    feac: Option<u8>,
    port: &mut P,
    log: &mut G,
) -> Result<(), MuxStop>
    requires slips { G.takes ≡ true }
    requires chain { IsChainOf T.shapes T.fits clock.now }
    requires scheduled { frames ≤ frame_count clock.now.rows [] }
    requires code { IfSome feac (λ code. code < 64) }
    requires port { IsPortFor (P.fresh port.old) (width T.shapes) (P.inputs port.old).holds (P.outputs port.old).holds }
    ensures { IfErr result (λ stop. (over : Bool) (place : Place) → stop ≡ MeetsEvent over place → ⊥) }
{
    mux_with::<T, P, G>(alloc, clock, frames, feac, port, log)
}

/// The event that ends a line is told as what it is.
pub fn overflow_told_as_underflow<T: ChainTop, P: Port, G: SlipLog>(
    alloc: Global,
    clock: &Schedule,
    frames: u64,
    feac: Option<u8>,
    port: &mut P,
    log: &mut G,
) -> Result<(), MuxStop>
    requires chain { IsChainOf T.shapes T.fits clock.now }
    requires scheduled { frames ≤ frame_count clock.now.rows [] }
    requires code { IfSome feac (λ code. code < 64) }
    requires port { IsPortFor (P.fresh port.old) (width T.shapes) (P.inputs port.old).holds (P.outputs port.old).holds }
    ensures { IfErr result (λ stop. (over : Bool) (place : Place) → stop ≡ MeetsEvent over place
        → (event : Event) × (first_event T.shapes (counts clock.now.rows) frames ≡ Some event) × (over ≡ is_overflow event.kind)) }
{
    mux_with::<T, P, G>(alloc, clock, frames, feac, port, log)
}

/// A line is made to its end only where the port was started and no call that puts bits has failed.
pub fn goes_on_after_a_failed_start<T: ChainTop, P: Port, G: SlipLog>(
    alloc: Global,
    clock: &Schedule,
    frames: u64,
    feac: Option<u8>,
    port: &mut P,
    log: &mut G,
) -> Result<(), MuxStop>
    requires chain { IsChainOf T.shapes T.fits clock.now }
    requires scheduled { frames ≤ frame_count clock.now.rows [] }
    requires code { IfSome feac (λ code. code < 64) }
    requires port { IsPortFor (P.fresh port.old) (width T.shapes) (P.inputs port.old).holds (P.outputs port.old).holds }
    ensures started { OnOk result (P.ready port.new) }
    ensures unfailed { OnOk result (P.drain_faults port.new ≡ P.drain_faults port.old) }
{
    mux_with::<T, P, G>(alloc, clock, frames, feac, port, log)
}

// ---- a line that is taken apart

/// The bits that are taken of a line come to the receiver.
pub fn drops_the_bits_it_takes<R: Rx, P: Port, W: Watch>(
    receiver: &mut R,
    bits: u64,
    buffer: &mut Packed,
    port: &mut P,
    watch: &mut W,
) -> Result<(), DemuxStop>
    requires some { 0 < buffer.old.capacity }
    requires stands { R.stands receiver.old [] }
    requires port { IsLinkedTo (R.meaning receiver.old) (P.inputs port.old) (P.outputs port.old) }
    ensures { OnOk result ((list : List Bool) → (P.inputs port.old).told 0 ≡ Some list → R.stands receiver.new (take bits list)) }
{
    receive(receiver, bits, buffer, port, watch)
}

/// The watch sees all events of a line.
pub fn events_are_told_to_no_watch<S: Shape, C: ChainRx, P: Port, W: Watch>(
    alloc: Global,
    bits: u64,
    port: &mut P,
    watch: &mut W,
) -> Result<u64, DemuxStop>
    requires levels { AreFew (S.shape ∷ C.shapes) }
    requires few { bits < 2 ^ 63 }
    requires port { IsPortFor (P.fresh port.old) (width (S.shape ∷ C.shapes)) (P.outputs port.old).holds (P.inputs port.old).holds }
    ensures { IfOk result (λ frames. (list : List Bool) → (P.inputs port.old).told 0 ≡ Some list
        → W.saw watch.old (chain_events (S.shape ∷ C.shapes) (take bits list)) watch.new) }
{
    demux_with::<S, C, P, W>(alloc, bits, port, watch)
}

// ---- trees

/// A chain's receiver is at the top.
pub fn receiver_opened_at_another_path<R: ChainRx>(alloc: Global) -> Result<R, AllocError>
    requires { AreFew R.shapes }
    ensures { IfOk result (λ receiver. (R.meaning receiver).path ≡ (receiver_of R.shapes top 0).path) }
{
    open_receiver::<R>(alloc)
}

/// The leaves of a chain's sender are numbered from 0 on.
pub fn senders_leaves_numbered_from_one_more<T: ChainTx>(alloc: Global) -> Result<T, AllocError>
    requires few { AreFew T.shapes }
    requires kinds { T.fits }
    ensures { IfOk result (λ sender. (k : ℕ) → k < width T.shapes → (T.meaning sender).leaves k ≡ true) }
{
    open_sender::<T>(alloc)
}
