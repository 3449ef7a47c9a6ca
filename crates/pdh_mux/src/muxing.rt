//! `mux` and `mux_slips` of each chain, by the types of its nodes.

ghost use Rattle.std.specs.Prelude.{◌≡◌, ◌<◌, ◌≤◌, [], ◌∷◌, true, None, Err, OnOk, IfErr, IfSome};
ghost use Rattle.pdh_line.specs.Sending.{HasStores};
ghost use Rattle.pdh_line.specs.Sending.Mode.{Plain, Slipping};
ghost use Rattle.pdh_nesting.specs.Chains.{width};
ghost use Rattle.pdh_clock.specs.Contents.{frame_count};
ghost use Rattle.pdh_chain.specs.Chains.{shapes_of, leaves_of, levels_of};
ghost use Rattle.pdh_chain.specs.Trees.{HasNoStores};
ghost use Rattle.pdh_chain.specs.Muxes.{IsLeftReady};
ghost use Rattle.pdh_chain.specs.declared.stop.MuxStop.TheVariants.{Memory as MuxMemory};
ghost use Rattle.pdh_chain.specs.Faults.{mux_reads, mux_writes};
ghost use Rattle.pdh_chain.specs.Slipping.{TellsSlips};
ghost use Rattle.pdh_chain.specs.Calls.{IsChainOf, IsPortFor, MuxesBy, MuxStopsBy};
ghost use Rattle.pdh_mux.specs.Muxed.{IsMuxed};

use pdh_chain::{Chain, ChainTx, E12Sender, E13Sender, E23Sender, M12Sender, MuxStop, mux_with};
use pdh_clock::Schedule;
use pdh_ds::{Ds2, Ds3, Ds3C};
use pdh_edge::Port;
use pdh_eframes::{E2, E3, E4};
use pdh_locked::Locked;
use pdh_shape::Shape;
use pdh_slips::{NoSlips, SlipLog};
use pdh_tx::{Leaf, Node};
use std::alloc::Global;

// The same as `mux_with`, where the top has stores.
fn mux_stored<S: Shape, C: ChainTx, P: Port, G: SlipLog>(
    alloc: Global,
    clock: &Schedule,
    frames: u64,
    feac: Option<u8>,
    port: &mut P,
    log: &mut G,
) -> Result<(), MuxStop>
    requires chain { IsChainOf (S.shape ∷ C.shapes) (HasStores S.shape × C.fits) clock.now }
    requires scheduled { frames ≤ frame_count clock.now.rows [] }
    requires code { IfSome feac (λ code. code < 64) }
    requires port { IsPortFor (P.fresh port.old) (width (S.shape ∷ C.shapes)) (P.inputs port.old).holds (P.outputs port.old).holds }
    ensures kept { P.kept port.old port.new }
    ensures ready { IsLeftReady (P.fresh port.new) (P.ready port.new) (P.refused port.new) result }
    ensures muxed { IsMuxed P.Feed P.Drain G.SlipLog (S.shape ∷ C.shapes) clock.now feac frames port.old port.new log.old log.new result }
{
    mux_with::<Node<S, C>, P, G>(alloc, clock, frames, feac, port, log)
}

// The same, where it has none.
fn mux_locked<S: Shape, C: ChainTx, P: Port, G: SlipLog>(
    alloc: Global,
    clock: &Schedule,
    frames: u64,
    feac: Option<u8>,
    port: &mut P,
    log: &mut G,
) -> Result<(), MuxStop>
    requires chain { IsChainOf (S.shape ∷ C.shapes) (HasNoStores S.shape × C.fits) clock.now }
    requires scheduled { frames ≤ frame_count clock.now.rows [] }
    requires code { IfSome feac (λ code. code < 64) }
    requires port { IsPortFor (P.fresh port.old) (width (S.shape ∷ C.shapes)) (P.inputs port.old).holds (P.outputs port.old).holds }
    ensures kept { P.kept port.old port.new }
    ensures ready { IsLeftReady (P.fresh port.new) (P.ready port.new) (P.refused port.new) result }
    ensures muxed { IsMuxed P.Feed P.Drain G.SlipLog (S.shape ∷ C.shapes) clock.now feac frames port.old port.new log.old log.new result }
{
    mux_with::<Locked<S, C>, P, G>(alloc, clock, frames, feac, port, log)
}

// The same, by the frame of the chain's top and the type of the top's tributaries.
fn mux_by_types<P: Port, G: SlipLog>(
    alloc: Global,
    chain: Chain,
    clock: &Schedule,
    frames: u64,
    feac: Option<u8>,
    port: &mut P,
    log: &mut G,
) -> Result<(), MuxStop>
    requires levels { clock.now.levels ≡ levels_of chain }
    requires scheduled { frames ≤ frame_count clock.now.rows [] }
    requires code { IfSome feac (λ code. code < 64) }
    requires port { IsPortFor (P.fresh port.old) (leaves_of chain) (P.inputs port.old).holds (P.outputs port.old).holds }
    ensures kept { P.kept port.old port.new }
    ensures ready { IsLeftReady (P.fresh port.new) (P.ready port.new) (P.refused port.new) result }
    ensures muxed { IsMuxed P.Feed P.Drain G.SlipLog (shapes_of chain) clock.now feac frames port.old port.new log.old log.new result }
{
    match chain {
        Chain::E12 => mux_stored::<E2, Leaf, P, G>(alloc, clock, frames, feac, port, log),
        Chain::E23 => mux_stored::<E3, Leaf, P, G>(alloc, clock, frames, feac, port, log),
        Chain::E34 => mux_stored::<E4, Leaf, P, G>(alloc, clock, frames, feac, port, log),
        Chain::E13 => mux_stored::<E3, E12Sender, P, G>(alloc, clock, frames, feac, port, log),
        Chain::E24 => mux_stored::<E4, E23Sender, P, G>(alloc, clock, frames, feac, port, log),
        Chain::E14 => mux_stored::<E4, E13Sender, P, G>(alloc, clock, frames, feac, port, log),
        Chain::M12 => mux_stored::<Ds2, Leaf, P, G>(alloc, clock, frames, feac, port, log),
        Chain::M23 => mux_stored::<Ds3, Leaf, P, G>(alloc, clock, frames, feac, port, log),
        Chain::M13 => mux_stored::<Ds3, M12Sender, P, G>(alloc, clock, frames, feac, port, log),
        Chain::C13 => mux_locked::<Ds3C, M12Sender, P, G>(alloc, clock, frames, feac, port, log),
    }
}

/// Makes so many frames of a chain's line from the leaves of a port, and puts their bits to its list 0, whole frames only.
/// The frames of the top are idle, but for the code that `feac` asks for: where their shape has a far end alarm and control
/// channel, its bits are those of the code's words. It takes its memory before it starts the port. The first event of a store
/// ends the line.
pub fn mux<P: Port>(
    alloc: Global,
    chain: Chain,
    clock: &Schedule,
    frames: u64,
    feac: Option<u8>,
    port: &mut P,
) -> Result<(), MuxStop>
    requires levels { clock.now.levels ≡ levels_of chain }
    requires scheduled { frames ≤ frame_count clock.now.rows [] }
    requires code { IfSome feac (λ code. code < 64) }
    requires port { IsPortFor (P.fresh port.old) (leaves_of chain) (P.inputs port.old).holds (P.outputs port.old).holds }
    ensures kept { P.kept port.old port.new }
    ensures reads { P.feed_faults port.new ≡ mux_reads result (P.feed_faults port.old) }
    ensures writes { P.drain_faults port.new ≡ mux_writes result (P.drain_faults port.old) }
    ensures ready { IsLeftReady (P.fresh port.new) (P.ready port.new) (P.refused port.new) result }
    ensures ok { OnOk result (MuxesBy P.Feed P.Drain Plain (shapes_of chain) clock.now feac frames port.old port.new) }
    ensures err { IfErr result (MuxStopsBy P.Feed P.Drain Plain (shapes_of chain) clock.now feac frames port.old port.new) }
{
    mux_by_types(alloc, chain, clock, frames, feac, port, &mut NoSlips)
}

/// Makes so many frames of the line of a chain whose stores slip and go on, as `mux` makes one without a code, and tells the log
/// of each slip when it comes, in the order of the steps. No event ends the line; a log that can't be told of a slip does, behind
/// the whole frames before it. It takes its memory before it starts the port.
pub fn mux_slips<P: Port, G: SlipLog>(
    alloc: Global,
    chain: Chain,
    clock: &Schedule,
    frames: u64,
    port: &mut P,
    log: &mut G,
) -> Result<(), MuxStop>
    requires takes { G.takes ≡ true }
    requires levels { clock.now.levels ≡ levels_of chain }
    requires scheduled { frames ≤ frame_count clock.now.rows [] }
    requires port { IsPortFor (P.fresh port.old) (leaves_of chain) (P.inputs port.old).holds (P.outputs port.old).holds }
    ensures kept { P.kept port.old port.new }
    ensures reads { P.feed_faults port.new ≡ mux_reads result (P.feed_faults port.old) }
    ensures writes { P.drain_faults port.new ≡ mux_writes result (P.drain_faults port.old) }
    ensures ready { IsLeftReady (P.fresh port.new) (P.ready port.new) (P.refused port.new) result }
    ensures ok { OnOk result (MuxesBy P.Feed P.Drain Slipping (shapes_of chain) clock.now None frames port.old port.new) }
    ensures err { IfErr result (MuxStopsBy P.Feed P.Drain Slipping (shapes_of chain) clock.now None frames port.old port.new) }
    ensures told { TellsSlips G.SlipLog log.old log.new (shapes_of chain) clock.now frames result }
    ensures untold { result ≡ Err MuxMemory → log.new ≡ log.old }
{
    mux_by_types(alloc, chain, clock, frames, None, port, log)
}
