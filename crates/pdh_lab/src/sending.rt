//! The line of a drill.

ghost use Rattle.std.specs.Prelude.{◌≡◌, ◌*◌, [], ◌∷◌, map, ◌^◌, ◌<◌, ◌≤◌, IsTrue, IfOk, OnOk};
ghost use Rattle.pdh_edge.specs.MemLists.{inputs_of, outputs_of, items_of, room_of};
ghost use Rattle.pdh_nesting.specs.Chains.{top_len};
ghost use Rattle.pdh_shape.specs.OwnNumbers.{most_frames};
ghost use Rattle.pdh_chain.specs.Chains.{shapes_of};
ghost use Rattle.pdh_chain.specs.declared.stop.MuxStop.TheVariants.{Memory};
ghost use Rattle.pdh_lab.specs.Drill.{line_of};
ghost use Rattle.pdh_lab.specs.Steps.{CanSend, IsSent};
ghost use Rattle.pdh_patterns.specs.Leaves.{IsClockOf};

use crate::leaves::inputs_of;
use pdh_chain::{Chain, MuxStop, frame_bytes};
use pdh_clock::Schedule;
use pdh_edge::{Drain, Feed, MemPort, Port};
use pdh_packed::Packed;
use std::alloc::{AllocError, Global};

// A port that gives the leaves' bits and has room for a line of so many bits.
fn port_for(alloc: Global, leaves: Vec<Packed>, bits: usize) -> Result<MemPort, AllocError>
    requires { bits < 2 ^ 32 }
    ensures inputs { IfOk result (λ port. ⟦<MemPort as Feed>⟧.inputs port ≡ inputs_of (map items_of leaves.items)) }
    ensures outputs { IfOk result (λ port. ⟦<MemPort as Drain>⟧.outputs port ≡ outputs_of ([] ∷ [])) }
    ensures fresh { IfOk result ⟦<MemPort as Port>⟧.fresh }
    ensures faults { IfOk result (λ port. ⟦<MemPort as Drain>⟧.drain_faults port ≡ 0) }
    ensures room { IfOk result (λ port. bits < room_of port 0) }
{
    let mut port = MemPort::open(alloc, leaves, 1)?;
    // One more than is ever put, so that the list is never full.
    port.room(0, bits + 1)?;
    Ok(port)
}

// What is wanting where a line isn't made that nothing else stands in the way of.
fn wanting(_stop: MuxStop) -> AllocError
    requires { _stop ≡ Memory }
{
    AllocError
}

// Makes the line into the port's list.
fn send(
    alloc: Global,
    chain: Chain,
    clock: &Schedule,
    frames: u64,
    port: &mut MemPort,
) -> Result<(), AllocError>
    requires clock { IsClockOf chain frames clock.now }
    requires enough { CanSend chain frames (⟦<MemPort as Feed>⟧.inputs port.old) }
    requires outputs { ⟦<MemPort as Drain>⟧.outputs port.old ≡ outputs_of ([] ∷ []) }
    requires fresh { ⟦<MemPort as Port>⟧.fresh port.old }
    requires faults { ⟦<MemPort as Drain>⟧.drain_faults port.old ≡ 0 }
    requires room { frames * top_len (shapes_of chain) < room_of port.old 0 }
    ensures ok { OnOk result (IsSent chain frames clock.now (⟦<MemPort as Feed>⟧.inputs port.old) (⟦<MemPort as Feed>⟧.inputs port.new) (⟦<MemPort as Drain>⟧.outputs port.old) (⟦<MemPort as Drain>⟧.outputs port.new)) }
    ensures line { IsTrue ((⟦<MemPort as Drain>⟧.outputs port.new).holds 0) }
{
    match pdh_mux::mux(alloc, chain, clock, frames, None, port) {
        Ok(()) => Ok(()),
        // The schedule is within the tolerance, and long enough, as the leaves are; the port gives its
        // bits, and has room.
        Err(stop) => Err(wanting(stop)),
    }
}

// A copy of a list.
fn copied(alloc: Global, list: &Packed) -> Result<Packed, AllocError>
    ensures { IfOk result (λ copy. copy.bits ≡ list.now.bits) }
{
    let mut copy = Packed::open(alloc, list.len())?;
    copy.append_from(list, 0, list.len());
    Ok(copy)
}

/// The line of the leaves' patterns.
pub fn line_from(
    alloc: Global,
    chain: Chain,
    clock: &Schedule,
    seed: u64,
    frames: u64,
) -> Result<Packed, AllocError>
    requires clock { IsClockOf chain frames clock.now }
    requires seed { seed ≤ 999999999 }
    requires few { frames ≤ most_frames }
    ensures { IfOk result (λ line. line.bits ≡ line_of chain seed frames) }
{
    let inputs = inputs_of(alloc, chain, clock, seed, frames)?;
    let bits = 8 * frames as usize * frame_bytes(chain) as usize;
    let mut port = port_for(alloc, inputs, bits)?;
    send(alloc, chain, clock, frames, &mut port)?;
    copied(alloc, port.output(0))
}
