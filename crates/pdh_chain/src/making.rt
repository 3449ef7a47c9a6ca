//! `mux` and `mux_slips` of a chain by the type of its top.

ghost use Rattle.std.specs.Prelude.{◌≡◌, ◌<◌, ◌≤◌, [], true, Err, OnOk, IfErr, IfSome};
ghost use Rattle.pdh_clock.specs.Contents.{frame_count};
ghost use Rattle.pdh_nesting.specs.Chains.{width};
ghost use Rattle.pdh_tx.specs.Meaning.{mode_of};
ghost use Rattle.pdh_chain.specs.Muxes.{IsLeftReady, mux_stop};
ghost use Rattle.pdh_chain.specs.Faults.{mux_reads, mux_writes};
ghost use Rattle.pdh_chain.specs.declared.stop.MuxStop.TheVariants.{Memory};
ghost use Rattle.pdh_chain.specs.Calls.{IsPortFor, IsChainOf, MuxesBy, MuxStopsBy};
ghost use Rattle.pdh_chain.specs.Slipping.{TellsSlips};

use crate::multiplexer::ChainTop;
use crate::opening::open_sender;
use crate::sending::{SendStop, send_frames};
use crate::stop::MuxStop;
use pdh_clock::Schedule;
use pdh_edge::{Failed, Port};
use pdh_packed::Packed;
use pdh_slips::SlipLog;
use pdh_tx::TxStop;
use std::alloc::Global;

// How a stop of the sender ends `mux`.
fn stop_of(stop: TxStop) -> MuxStop
    ensures { result ≡ mux_stop stop }
{
    match stop {
        TxStop::Overflow(place) => MuxStop::Event { over: true, place },
        TxStop::Underflow(place) => MuxStop::Event { over: false, place },
        TxStop::NoFrame { node } => MuxStop::NoFrame { node },
        TxStop::Failed => MuxStop::ReadFailed,
        TxStop::Ended { leaf } => MuxStop::Ended { leaf },
        TxStop::LogFailed => MuxStop::LogFailed,
    }
}

// How many frames of the top are made at once, at most: that saves calls where its tributaries have frames of their own.
fn frames_at_once(over_leaves: bool) -> usize
    ensures some { 0 < result }
    ensures few { result ≤ 16 }
{
    if over_leaves { 1 } else { 16 }
}

/// Makes so many frames of the line of a chain with such a top, as `mux` does, or where the log takes slips as `mux_slips` does.
pub fn mux_with<T: ChainTop, P: Port, G: SlipLog>(
    alloc: Global,
    clock: &Schedule,
    frames: u64,
    feac: Option<u8>,
    port: &mut P,
    log: &mut G,
) -> Result<(), MuxStop>
    requires chain { IsChainOf T.shapes T.fits clock.now }
    requires scheduled { frames ≤ frame_count clock.now.rows [] }
    requires code { IfSome feac (λ code. code < 64) }
    requires port { IsPortFor (P.fresh port.old) (width T.shapes) (P.inputs port.old).holds (P.outputs port.old).holds }
    ensures kept { P.kept port.old port.new }
    ensures reads { P.feed_faults port.new ≡ mux_reads result (P.feed_faults port.old) }
    ensures writes { P.drain_faults port.new ≡ mux_writes result (P.drain_faults port.old) }
    ensures ready { IsLeftReady (P.fresh port.new) (P.ready port.new) (P.refused port.new) result }
    ensures ok { OnOk result (MuxesBy P.Feed P.Drain (mode_of G.takes) T.shapes clock.now feac frames port.old port.new) }
    ensures err { IfErr result (MuxStopsBy P.Feed P.Drain (mode_of G.takes) T.shapes clock.now feac frames port.old port.new) }
    ensures told { G.takes ≡ true → TellsSlips G.SlipLog log.old log.new T.shapes clock.now frames result }
    ensures untold { result ≡ Err Memory → log.new ≡ log.old }
{
    let mut top: T = open_sender(alloc)?;
    let len = T::LEN;
    let mut frame = Packed::open(alloc, frames_at_once(T::IS_OVER_LEAVES) * len as usize)?;
    if let Err(Failed) = port.start() {
        return Err(MuxStop::WriteFailed);
    }
    match send_frames(&mut top, clock, len, frames, feac, &mut frame, port, log) {
        Ok(()) => Ok(()),
        Err(SendStop::Sender(stop)) => Err(stop_of(stop)),
        Err(SendStop::TakeFailed) => Err(MuxStop::ReadFailed),
        Err(SendStop::WriteFailed) => Err(MuxStop::WriteFailed),
    }
}
