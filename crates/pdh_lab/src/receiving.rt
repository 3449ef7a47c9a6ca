//! What the leaves of a drill receive.

ghost use Rattle.std.specs.Prelude.{◌≡◌, ⊤, ◌<◌, ◌/◌, ◌^◌, ℕ, [], ◌∷◌, length, replicate, IsTrue, IfOk, OnOk};
ghost use Rattle.pdh_edge.specs.MemLists.{inputs_of, outputs_of, room_of};
ghost use Rattle.pdh_chain.specs.Chains.{shapes_of, leaves_of};
ghost use Rattle.pdh_chain.specs.Demuxes.{Demuxes};
ghost use Rattle.pdh_chain.specs.declared.stop.DemuxStop.TheVariants.{Memory};
ghost use Rattle.pdh_lab.specs.Steps.{HasLine, HaveReceived};

use pdh_chain::{Chain, DemuxStop, leaves};
use pdh_edge::{Drain, Feed, MemPort, Port};
use pdh_packed::Packed;
use pdh_watch::Quiet;
use std::alloc::{AllocError, Global};

// Makes room for more than so many bits in the list of each leaf, so that none is ever full.
fn make_room(port: &mut MemPort, leaves: u32, bits: usize) -> Result<(), AllocError>
    requires held { (k : ℕ) → k < leaves → IsTrue ((⟦<MemPort as Drain>⟧.outputs port.old).holds k) }
    requires few { bits < 2 ^ 62 }
    ensures inputs { ⟦<MemPort as Feed>⟧.inputs port.new ≡ ⟦<MemPort as Feed>⟧.inputs port.old }
    ensures outputs { ⟦<MemPort as Drain>⟧.outputs port.new ≡ ⟦<MemPort as Drain>⟧.outputs port.old }
    ensures fresh { ⟦<MemPort as Port>⟧.fresh port.old → ⟦<MemPort as Port>⟧.fresh port.new }
    ensures faults { ⟦<MemPort as Drain>⟧.drain_faults port.new ≡ ⟦<MemPort as Drain>⟧.drain_faults port.old }
    ensures room { OnOk result ((k : ℕ) → k < leaves → bits < room_of port.new k) }
{
    for leaf in 0..leaves {
        port.room(leaf, bits + 1)?;
    }
    Ok(())
}

// A port that gives a line and takes what its leaves receive, with room for all of that: a leaf
// receives no more than its share of the line's bits.
fn port_of(alloc: Global, line: Packed, leaves: u32) -> Result<MemPort, AllocError>
    requires some { 0 < leaves }
    requires few { length line.bits < 2 ^ 62 }
    ensures inputs { IfOk result (λ port. ⟦<MemPort as Feed>⟧.inputs port ≡ inputs_of (line.bits ∷ [])) }
    ensures outputs { IfOk result (λ port. ⟦<MemPort as Drain>⟧.outputs port ≡ outputs_of (replicate leaves [])) }
    ensures fresh { IfOk result ⟦<MemPort as Port>⟧.fresh }
    ensures faults { IfOk result (λ port. ⟦<MemPort as Drain>⟧.drain_faults port ≡ 0) }
    ensures room { IfOk result (λ port. (k : ℕ) → k < leaves → length line.bits / leaves < room_of port k) }
{
    let bits = line.len() / leaves as usize;
    let mut inputs = Vec::new(alloc);
    inputs.push(line)?;
    let mut port = MemPort::open(alloc, inputs, leaves)?;
    make_room(&mut port, leaves, bits)?;
    Ok(port)
}

// What is wanting where a line isn't taken that has its bits, into a port that has room.
fn wanting(_stop: DemuxStop) -> AllocError
    requires { _stop ≡ Memory }
{
    AllocError
}

// Gives the receivers of a chain the line's bits, so many, and answers how many frames are delivered.
fn deliver(alloc: Global, chain: Chain, bits: u64, port: &mut MemPort) -> Result<u64, AllocError>
    requires few { bits < 2 ^ 63 }
    requires line { HasLine bits (⟦<MemPort as Feed>⟧.inputs port.old) }
    requires outputs { ⟦<MemPort as Drain>⟧.outputs port.old ≡ outputs_of (replicate (leaves_of chain) []) }
    requires fresh { ⟦<MemPort as Port>⟧.fresh port.old }
    requires faults { ⟦<MemPort as Drain>⟧.drain_faults port.old ≡ 0 }
    requires room { (k : ℕ) → k < leaves_of chain → bits / leaves_of chain < room_of port.old k }
    ensures ok { IfOk result (λ frames. Demuxes (shapes_of chain) (λ events. ⊤) bits frames (⟦<MemPort as Feed>⟧.inputs port.old) (⟦<MemPort as Feed>⟧.inputs port.new) (⟦<MemPort as Drain>⟧.outputs port.old) (⟦<MemPort as Drain>⟧.outputs port.new)) }
    ensures leaves { (k : ℕ) → k < leaves_of chain → IsTrue ((⟦<MemPort as Drain>⟧.outputs port.new).holds k) }
{
    match pdh_demux::demux(alloc, chain, bits, port, &mut Quiet) {
        Ok(frames) => Ok(frames),
        // The line has its bits; the port gives them, and has room.
        Err(stop) => Err(wanting(stop)),
    }
}

/// A port whose lists have what the leaves receive of a line.
pub fn receive(alloc: Global, chain: Chain, line: Packed) -> Result<MemPort, AllocError>
    requires { length line.bits < 2 ^ 62 }
    ensures { IfOk result (λ port. HaveReceived chain line.bits (⟦<MemPort as Drain>⟧.outputs port)) }
{
    let bits = line.len() as u64;
    let mut port = port_of(alloc, line, leaves(chain))?;
    deliver(alloc, chain, bits, &mut port)?;
    Ok(port)
}
