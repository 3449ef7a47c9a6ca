//! The bits of a whole framed line of 2048 kbit/s given to the machine that finds its payload.

ghost use Rattle.std.specs.Prelude.{◌≡◌, ◌<◌, ◌≤◌, ◌*◌, ◌^◌, Bool, List, [], ◌∷◌, length, IsTrue, IfOk, OnOk, Some};
ghost use Rattle.pdh_bits.specs.Bits.{bits_of};
ghost use Rattle.pdh_edge.specs.MemLists.{outputs_of, room_of};
ghost use Rattle.pdh_g706.specs.View.{StandsFor};
ghost use Rattle.pdh_streams.specs.Delivering.{IsPayload};
ghost use Rattle.pdh_streams.specs.Steps.{IsUnpacked};
ghost use Rattle.pdh_streams.specs.E1.{e1_codec, counts_in};

use crate::codec::Found;
use crate::machine::Machine;
use pdh_edge::{Drain, Failed, MemPort};
use pdh_g706::E1Align;
use pdh_packed::Packed;
use std::alloc::{AllocError, Global};

// The most octets of a line whose bits are given to a machine at once.
const MOST_OCTETS: usize = 4096;

/// What a framed line gives.
#[derive(Drop)]
pub(crate) struct Unpacked {
    /// The whole octets of its payload.
    pub(crate) payload: Vec<u8>,
    /// What was found in it.
    pub(crate) found: Found,
}

// A port that takes the payload of a line of so many bits, with room for as many.
fn payload_port(alloc: Global, bits: usize) -> Result<MemPort, AllocError>
    ensures outputs { IfOk result (λ port. ⟦<MemPort as Drain>⟧.outputs port ≡ outputs_of ([] ∷ [])) }
    ensures faults { IfOk result (λ port. ⟦<MemPort as Drain>⟧.drain_faults port ≡ 0) }
    ensures room { IfOk result (λ port. bits ≤ room_of port 0) }
{
    let mut port = MemPort::open(alloc, Vec::new(alloc), 1)?;
    port.room(0, bits)?;
    Ok(port)
}

// Gives a machine that has taken no bit the bits of a line, a piece at a time, or finds no memory for a piece. No put fails.
fn deliver<M: Machine>(
    alloc: Global,
    line: &[u8],
    machine: &mut M,
    port: &mut MemPort,
) -> Result<(), AllocError>
    requires stands { M.stands machine.old [] }
    requires payload { IsPayload (M.far machine.old) }
    requires outputs { ⟦<MemPort as Drain>⟧.outputs port.old ≡ outputs_of ([] ∷ []) }
    requires faults { ⟦<MemPort as Drain>⟧.drain_faults port.old ≡ 0 }
    requires room { 8 * length line.now ≤ room_of port.old 0 }
    ensures same { OnOk result (M.far machine.new ≡ M.far machine.old) }
    ensures stands { OnOk result (M.stands machine.new (bits_of line.now)) }
    ensures put { OnOk result ((bits : List Bool) → (⟦<MemPort as Drain>⟧.outputs port.new).told 0 ≡ Some bits → bits ≡ (M.far machine.old) (bits_of line.now)) }
    ensures list { IsTrue ((⟦<MemPort as Drain>⟧.outputs port.new).holds 0) }
    ensures unfailed { ⟦<MemPort as Drain>⟧.drain_faults port.new ≡ 0 }
{
    let mut bits = Packed::open(alloc, 8 * MOST_OCTETS)?;
    for octets in line.chunks(MOST_OCTETS) {
        bits.clear();
        bits.append_bytes(octets);
        // A port fails for want of room, and this one has room: a payload has fewer bits than its line.
        if let Err(Failed) = machine.receive(&bits, port) {
            return Err(AllocError);
        }
    }
    Ok(())
}

// What was found in a line so far.
fn found_by(align: &E1Align) -> Found
    ensures { (line : List Bool) → StandsFor align.now line → result ≡ counts_in line }
{
    Found {
        delivered: align.multiframes(),
        blocks: align.blocks(),
        errored: align.errored(),
    }
}

/// What a line gives; or it finds no memory.
pub(crate) fn unpack(alloc: Global, line: &[u8]) -> Result<Unpacked, AllocError>
    requires { 8 * length line.now < 2 ^ 63 }
    ensures { IfOk result (IsUnpacked e1_codec line.now) }
{
    let mut align = E1Align::open(alloc)?;
    let mut port = payload_port(alloc, 8 * line.len())?;
    deliver(alloc, line, &mut align, &mut port)?;
    let payload = port.output(0).to_bytes(alloc)?;
    let found = found_by(&align);
    Ok(Unpacked { payload, found })
}
