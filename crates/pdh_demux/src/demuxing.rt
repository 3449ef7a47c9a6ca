//! `demux` of each chain, by the types of its nodes.

ghost use Rattle.std.specs.Prelude.{◌≡◌, ◌<◌, ◌^◌, Err, IfOk, IfErr};
ghost use Rattle.pdh_chain.specs.Chains.{shapes_of, leaves_of};
ghost use Rattle.pdh_chain.specs.Recovered.{ComesBackFrom};
ghost use Rattle.pdh_chain.specs.declared.stop.DemuxStop.TheVariants.{Memory};
ghost use Rattle.pdh_chain.specs.Faults.{demux_reads, demux_writes};
ghost use Rattle.pdh_chain.specs.Calls.{IsPortFor, DemuxesBy, DemuxStopsBy, IsLeft};

use pdh_chain::{Chain, DemuxStop, E12Receiver, E13Receiver, E23Receiver, M12Receiver, demux_with};
use pdh_ds::{Ds2, Ds3, Ds3C};
use pdh_edge::Port;
use pdh_eframes::{E2, E3, E4};
use pdh_rx::Tail;
use pdh_watch::Watch;
use std::alloc::Global;

// The same as `demux`, by the types of the chain's nodes.
fn demux_by_types<P: Port, W: Watch>(
    alloc: Global,
    chain: Chain,
    bits: u64,
    port: &mut P,
    watch: &mut W,
) -> Result<u64, DemuxStop>
    requires few { bits < 2 ^ 63 }
    requires port { IsPortFor (P.fresh port.old) (leaves_of chain) (P.outputs port.old).holds (P.inputs port.old).holds }
    ensures kept { P.kept port.old port.new }
    ensures reads { P.feed_faults port.new ≡ demux_reads result (P.feed_faults port.old) }
    ensures writes { P.drain_faults port.new ≡ demux_writes result (P.drain_faults port.old) }
    ensures left { IsLeft (P.fresh port.new) (P.ready port.new) (P.refused port.new) (P.unread port.new 0) result }
    ensures ok { IfOk result (DemuxesBy P.Feed P.Drain (shapes_of chain) (λ events. W.saw watch.old events watch.new) bits
        port.old port.new) }
    ensures err { IfErr result (DemuxStopsBy P.Feed P.Drain (shapes_of chain) (λ events. W.saw watch.old events watch.new) bits
        port.old port.new) }
    ensures unseen { result ≡ Err Memory → watch.new ≡ watch.old }
{
    match chain {
        Chain::E12 => demux_with::<E2, Tail, P, W>(alloc, bits, port, watch),
        Chain::E23 => demux_with::<E3, Tail, P, W>(alloc, bits, port, watch),
        Chain::E34 => demux_with::<E4, Tail, P, W>(alloc, bits, port, watch),
        Chain::E13 => demux_with::<E3, E12Receiver, P, W>(alloc, bits, port, watch),
        Chain::E24 => demux_with::<E4, E23Receiver, P, W>(alloc, bits, port, watch),
        Chain::E14 => demux_with::<E4, E13Receiver, P, W>(alloc, bits, port, watch),
        Chain::M12 => demux_with::<Ds2, Tail, P, W>(alloc, bits, port, watch),
        Chain::M23 => demux_with::<Ds3, Tail, P, W>(alloc, bits, port, watch),
        Chain::M13 => demux_with::<Ds3, M12Receiver, P, W>(alloc, bits, port, watch),
        Chain::C13 => demux_with::<Ds3C, M12Receiver, P, W>(alloc, bits, port, watch),
    }
}

/// Takes so many bits of a port's list 0, which is a chain's line, puts to each leaf's list what the
/// leaf receives by them, and answers how many frames of the top were delivered. It takes its memory
/// before it starts the port, and notes the events that the bits bring.
pub fn demux<P: Port, W: Watch>(
    alloc: Global,
    chain: Chain,
    bits: u64,
    port: &mut P,
    watch: &mut W,
) -> Result<u64, DemuxStop>
    requires few { bits < 2 ^ 63 }
    requires port { IsPortFor (P.fresh port.old) (leaves_of chain) (P.outputs port.old).holds (P.inputs port.old).holds }
    ensures kept { P.kept port.old port.new }
    ensures reads { P.feed_faults port.new ≡ demux_reads result (P.feed_faults port.old) }
    ensures writes { P.drain_faults port.new ≡ demux_writes result (P.drain_faults port.old) }
    ensures left { IsLeft (P.fresh port.new) (P.ready port.new) (P.refused port.new) (P.unread port.new 0) result }
    ensures ok { IfOk result (DemuxesBy P.Feed P.Drain (shapes_of chain) (λ events. W.saw watch.old events watch.new) bits
        port.old port.new) }
    ensures comes_back { IfOk result (λ frames. ComesBackFrom (shapes_of chain) bits
        (P.inputs port.old) (P.outputs port.old) (P.outputs port.new)) }
    ensures err { IfErr result (DemuxStopsBy P.Feed P.Drain (shapes_of chain) (λ events. W.saw watch.old events watch.new) bits
        port.old port.new) }
    ensures unseen { result ≡ Err Memory → watch.new ≡ watch.old }
{
    demux_by_types(alloc, chain, bits, port, watch)
}
