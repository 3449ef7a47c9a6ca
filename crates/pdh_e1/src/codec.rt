//! Payloads to lines of whole multiframes, and back.

ghost use Rattle.std.specs.Prelude.{◌≡◌, ◌+◌, ◌*◌, ◌%◌, ◌≤◌, length, IfOk, MatchOption, MatchResult};
ghost use Rattle.pdh_e1.specs.Codec.{frames_of, payload_of, RightUpTo, IsFirstWrong, IsPacked, IsPackedUpTo, IsNotPacked, IsUnpacked, IsNotUnpacked, PackedIsGivenBack};

use crate::fault::{PackFault, UnpackFault};
use crate::multiframe::{first_octet, is_right, sent_word};
use std::alloc::{AllocError, Global};

/// The line of multiframes that carries the payload, 31 octets to a frame, without alarm and with ones in the Sa and E
/// bits. A multiframe takes 496 octets, and no other number is packed.
pub fn pack(alloc: Global, payload: &[u8]) -> Result<Vec<u8>, PackFault>
    ensures { MatchResult result (λ v. IsPacked payload.now v.items) (IsNotPacked payload.now) }
{
    if payload.len() % 496 != 0 {
        return Err(PackFault::NotWhole {
            len: payload.len() as u64,
        });
    }
    let mut line = Vec::with_capacity(alloc, payload.len() + payload.len() / 31)?;
    for number in 0..payload.len() / 248 {
        push_sub_multiframe(&mut line, payload, number)?;
    }
    Ok(line)
}

/// The payload of a line of whole multiframes whose fixed bits and C bits are right. Its A, Sa and E bits may be any.
pub fn unpack(alloc: Global, line: &[u8]) -> Result<Vec<u8>, UnpackFault>
    ensures { MatchResult result (λ v. IsUnpacked line.now v.items) (IsNotUnpacked line.now) }
{
    if line.len() % 512 != 0 {
        return Err(UnpackFault::NotWhole {
            len: line.len() as u64,
        });
    }
    if let Some(frame) = first_wrong(line) {
        return Err(UnpackFault::Wrong {
            frame: frame as u64,
        });
    }
    let payload = payload_of(alloc, line)?;
    Ok(payload)
}

/// What `pack` makes, `unpack` takes back to the same payload.
pub fn packed_is_given_back()
    ensures { PackedIsGivenBack }
{}

/// Appends the eight frames of the sub-multiframe of this number to those before it.
fn push_sub_multiframe(line: &mut Vec<u8>, payload: &[u8], number: usize) -> Result<(), AllocError>
    requires enough { 248 * number + 248 ≤ length payload.now }
    requires before { IsPackedUpTo payload.now line.old.items (8 * number) }
    ensures { IfOk result (λ _. IsPackedUpTo payload.now line.new.items (8 * (number + 1))) }
{
    let word = sent_word(line, number);
    for place in 0..8 {
        let frame = 8 * number + place;
        let octet = first_octet(frame % 16, word);
        line.push(octet)?;
        line.extend_from_slice(&payload[31 * frame..31 * frame + 31])?;
    }
    Ok(())
}

/// The first wrong frame of a line of whole multiframes, if one is wrong.
fn first_wrong(line: &[u8]) -> Option<usize>
    requires { length line.now % 512 ≡ 0 }
    ensures { MatchOption result (RightUpTo line.now (frames_of line.now)) (IsFirstWrong line.now) }
{
    for number in 0..line.len() / 256 {
        if let Some(frame) = wrong_in(line, number) {
            return Some(frame);
        }
    }
    None
}

/// The first wrong frame of the sub-multiframe of this number, if one is wrong.
fn wrong_in(line: &[u8], number: usize) -> Option<usize>
    requires whole { 256 * number + 256 ≤ length line.now }
    requires before { RightUpTo line.now (8 * number) }
    ensures { MatchOption result (RightUpTo line.now (8 * (number + 1))) (IsFirstWrong line.now) }
{
    let word = sent_word(line, number);
    for place in 0..8 {
        let frame = 8 * number + place;
        if !is_right(frame % 16, word, line[32 * frame]) {
            return Some(frame);
        }
    }
    None
}

/// The payload of the frames of a line.
fn payload_of(alloc: Global, line: &[u8]) -> Result<Vec<u8>, AllocError>
    ensures { IfOk result (λ v. v.items ≡ payload_of line.now) }
{
    let mut payload = Vec::with_capacity(alloc, line.len() / 32 * 31)?;
    for frame in 0..line.len() / 32 {
        payload.extend_from_slice(&line[32 * frame + 1..32 * frame + 32])?;
    }
    Ok(payload)
}
