//! `smooth` of each chain of one multiplexer, by the type of its node.

ghost use Rattle.std.specs.Prelude.{◌≡◌, ◌<◌, ◌^◌, length, IfOk, IfErr};
ghost use Rattle.pdh_chain.specs.Chains.{shapes_of, levels_of};
ghost use Rattle.pdh_chain.specs.Faults.{demux_reads, demux_writes};
ghost use Rattle.pdh_chain.specs.Calls.{IsPortFor, IsLeft};
ghost use Rattle.pdh_smoothing.specs.Smoothing.{lists_put, SmoothsBy, SmoothStopsBy};

use crate::receiving::{Smoothed, smooth_with};
use pdh_chain::Chain;
use pdh_ds::{Ds2, Ds3};
use pdh_edge::Port;
use pdh_eframes::{E2, E3, E4};
use std::alloc::Global;

/// Takes so many bits of a port's list 0, the line of a chain of one multiplexer, puts to a list for each tributary what comes out
/// of its far store by them, and then to the list behind those the schedule that would make the line again; answers how many frames
/// were delivered. It takes its memory before it starts the port.
pub fn smooth<P: Port>(alloc: Global, chain: Chain, bits: u64, port: P) -> Smoothed<P>
    requires single { length (levels_of chain) ≡ 1 }
    requires few { bits < 2 ^ 63 }
    requires port { IsPortFor (P.fresh port) (lists_put (shapes_of chain)) (P.outputs port).holds (P.inputs port).holds }
    ensures kept { P.kept port result.port }
    ensures reads { P.feed_faults result.port ≡ demux_reads result.result (P.feed_faults port) }
    ensures writes { P.drain_faults result.port ≡ demux_writes result.result (P.drain_faults port) }
    ensures left { IsLeft (P.fresh result.port) (P.ready result.port) (P.refused result.port) (P.unread result.port 0) result.result }
    ensures ok { IfOk result.result (SmoothsBy P.Feed P.Drain (shapes_of chain) bits port result.port) }
    ensures err { IfErr result.result (SmoothStopsBy P.Feed P.Drain (shapes_of chain) bits port result.port) }
{
    match chain {
        Chain::E12 => smooth_with::<E2, P>(alloc, bits, port),
        Chain::E23 => smooth_with::<E3, P>(alloc, bits, port),
        Chain::E34 => smooth_with::<E4, P>(alloc, bits, port),
        Chain::M12 => smooth_with::<Ds2, P>(alloc, bits, port),
        Chain::M23 => smooth_with::<Ds3, P>(alloc, bits, port),
        // The others have multiplexers below the top.
        _ => unreachable!(),
    }
}
