//! `e1pack` and `e1unpack`: each holds its input and what becomes of it whole, before it starts its output.

ghost use Rattle.std.specs.Prelude.{◌≡◌, ◌*◌, ◌%◌, ◌^◌, ◌<◌, length, IfOk, IfErr, Some, Ok};
ghost use Rattle.pdh_edge.specs.Files.{Looks, Holds};
ghost use Rattle.pdh_answers.specs.Names.{payload_name, e1_name};
ghost use Rattle.pdh_runner.specs.Refusing.{Refuses};
ghost use Rattle.pdh_runner.specs.Performing.{IsCounted, Performs};
ghost use Rattle.pdh_streams.specs.Codecs.{payload_of, framed_of, packing, unpacking};
ghost use Rattle.pdh_streams.specs.E1.{e1_codec, packed_line};

use crate::delivering::unpack;
use crate::e1::{E1, pack_says, unpack_says};
use crate::inputs::{framed_line, whole_payload};
use pdh_answers::{Done, File, Stop};
use pdh_e1::pack;
use pdh_edge::Shelf;
use pdh_runner::files::{append, read, start};
use std::alloc::{AllocError, Global};

// The payload, if it fills whole multiframes, and no more frames than a line may have.
fn read_payload<S: Shelf>(alloc: Global, shelf: &mut S) -> Result<Vec<u8>, Stop>
    ensures looks { Looks (S.state shelf.old) (S.state shelf.new) }
    ensures payload { IfOk result (λ payload. Holds ((S.state shelf.old).told payload_name) payload.items) }
    ensures served { IfOk result (λ payload. payload_of e1_codec (Some payload.items) ≡ Ok payload.items) }
    ensures whole { IfOk result (λ payload. length payload.items % 496 ≡ 0) }
    ensures err { IfErr result (Refuses (packing e1_codec) (S.state shelf.old) (S.state shelf.new)) }
    ensures counted { IsCounted (S.state shelf.old) (S.state shelf.new) result }
{
    let payload = whole_payload(&E1, shelf)?;
    read(alloc, shelf, payload.file, payload.bits / 8)
}

// The line of a payload that fills whole multiframes; or it finds no memory.
fn line_of(alloc: Global, payload: &[u8]) -> Result<Vec<u8>, AllocError>
    requires { length payload.now % 496 ≡ 0 }
    ensures { IfOk result (λ line. line.items ≡ packed_line payload.now) }
{
    // such a payload is refused for want of memory alone
    match pack(alloc, payload) {
        Ok(line) => Ok(line),
        Err(_) => Err(AllocError),
    }
}

/// Reads the payload, writes the line of multiframes that carries it, and answers how many they are.
pub fn pack_e1<S: Shelf>(alloc: Global, shelf: &mut S) -> Result<Done, Stop>
    ensures { Performs (packing e1_codec) (S.state shelf.old) (S.state shelf.new) result }
{
    let payload = read_payload(alloc, shelf)?;
    let line = line_of(alloc, &payload)?;
    start(shelf, File::E1Line)?;
    append(shelf, File::E1Line, &line)?;
    Ok(pack_says(payload.len() as u64))
}

// The octets of the framed line, if it has no more frames than a line may have.
fn read_framed<S: Shelf>(alloc: Global, shelf: &mut S) -> Result<Vec<u8>, Stop>
    ensures looks { Looks (S.state shelf.old) (S.state shelf.new) }
    ensures line { IfOk result (λ line. Holds ((S.state shelf.old).told e1_name) line.items) }
    ensures served { IfOk result (λ line. framed_of e1_codec (Some line.items) ≡ Ok line.items) }
    ensures short { IfOk result (λ line. 8 * length line.items < 2 ^ 63) }
    ensures err { IfErr result (Refuses (unpacking e1_codec) (S.state shelf.old) (S.state shelf.new)) }
    ensures counted { IsCounted (S.state shelf.old) (S.state shelf.new) result }
{
    let line = framed_line(&E1, shelf)?;
    read(alloc, shelf, line.file, line.bits / 8)
}

/// Reads the framed line, writes the payload of the multiframes that are delivered of it, and answers how many they are and what
/// their blocks are judged, or that none was delivered.
pub fn unpack_e1<S: Shelf>(alloc: Global, shelf: &mut S) -> Result<Done, Stop>
    ensures { Performs (unpacking e1_codec) (S.state shelf.old) (S.state shelf.new) result }
{
    let line = read_framed(alloc, shelf)?;
    let unpacked = unpack(alloc, &line)?;
    start(shelf, File::PayloadOut)?;
    append(shelf, File::PayloadOut, &unpacked.payload)?;
    if unpacked.found.delivered == 0 {
        return Err(Stop::NoAlignment(8 * line.len() as u64));
    }
    Ok(unpack_says(unpacked.found))
}
