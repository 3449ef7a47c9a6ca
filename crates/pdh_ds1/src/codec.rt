//! Payloads to lines of superframes, and back.

ghost use Rattle.std.specs.Prelude.{◌≡◌, ◌+◌, ◌*◌, ◌/◌, ◌%◌, ◌<◌, ◌≤◌, ◌++◌, length, IfOk, MatchOption, MatchResult};
ghost use Rattle.pdh_bits.specs.Bits.{bits_of, bytes_of};
ghost use Rattle.pdh_framed.specs.RightFrames.{AreRight, FirstWrong};
ghost use Rattle.pdh_ds1.specs.Packing.{sent_word, frame_right, line_payload, packed_frames};
ghost use Rattle.pdh_ds1.specs.Codec.{f_bits_of, frames_of, packed_line, IsPacked, IsNotPacked, IsUnpacked, IsNotUnpacked, PackedIsGivenBack};

use crate::f_bits::fits;
use crate::framer::push_superframe;
use crate::words::word_of;
use crate::{Ds1PackFault, Ds1UnpackFault, EsfPlan, Frame1, InSuperframe, SfPlan};
use pdh_packed::Packed;
use std::alloc::{AllocError, Global};

/// The line of superframes that carries the payload, 24 octets to a frame, with ones in the data link. A payload fills 24
/// frames, 576 octets, once or more times, and no other number is packed.
pub fn pack(alloc: Global, frame: Frame1, payload: &[u8]) -> Result<Vec<u8>, Ds1PackFault>
    ensures packed { MatchResult result (λ v. IsPacked frame payload.now v.items) (IsNotPacked payload.now) }
    ensures line { IfOk result (λ v. v.items ≡ packed_line frame payload.now) }
{
    if payload.len() % 576 != 0 {
        return Err(Ds1PackFault::NotWhole {
            len: payload.len() as u64,
        });
    }
    let line = packed(alloc, frame, payload)?;
    let bytes = line.to_bytes(alloc)?;
    Ok(bytes)
}

/// The payload of a line of whole superframes whose framing and CRC bits are right. Its data link bits may be any.
pub fn unpack(alloc: Global, frame: Frame1, line: &[u8]) -> Result<Vec<u8>, Ds1UnpackFault>
    ensures { MatchResult result (λ v. IsUnpacked frame line.now v.items) (IsNotUnpacked frame line.now) }
{
    if line.len() % 579 != 0 {
        return Err(Ds1UnpackFault::NotWhole {
            len: line.len() as u64,
        });
    }
    let bits = Packed::of_bytes(alloc, line)?;
    match first_wrong_of(frame, &bits) {
        Some(wrong) => Err(Ds1UnpackFault::Wrong {
            frame: wrong as u64,
        }),
        None => Ok(payload_of(alloc, &bits)?),
    }
}

/// What `pack` makes, `unpack` takes back to the same payload.
pub fn packed_is_given_back()
    ensures { PackedIsGivenBack }
{}

/// The bits of the line of superframes of a form that carries the payload.
fn packed(alloc: Global, frame: Frame1, payload: &[u8]) -> Result<Packed, AllocError>
    requires { length payload.now % 576 ≡ 0 }
    ensures { IfOk result (λ line. line.bits ≡ packed_frames (f_bits_of frame) (frames_of frame) (bits_of payload.now) (length payload.now / 24)) }
{
    match frame {
        Frame1::Super => pack_by::<SfPlan>(alloc, payload),
        Frame1::Extended => pack_by::<EsfPlan>(alloc, payload),
    }
}

/// The bits of the line of superframes of a plan that carries the payload.
fn pack_by<P: InSuperframe>(alloc: Global, payload: &[u8]) -> Result<Packed, AllocError>
    requires { length payload.now / 24 % P.PLAN.frames ≡ 0 }
    ensures { IfOk result (λ line. line.bits ≡ packed_frames P.f_bits P.PLAN.frames (bits_of payload.now) (length payload.now / 24)) }
{
    let count = payload.len() / 24;
    let Some(capacity) = count.checked_mul(193) else {
        return Err(AllocError);
    };
    let frames = P::PLAN.frames as usize;
    let mut line = Packed::open(alloc, capacity)?;
    let mut sent = 0;
    let mut first = 0;
    while count - first >= frames {
        sent = push_superframe::<P>(&mut line, &payload[24 * first..], sent);
        first += frames;
    }
    Ok(line)
}

/// The first wrong frame of a line of whole superframes of a form, if one is wrong.
fn first_wrong_of(frame: Frame1, line: &Packed) -> Option<usize>
    requires { length line.now.bits % 4632 ≡ 0 }
    ensures { MatchOption result
        (AreRight (frame_right (f_bits_of frame) (frames_of frame) line.now.bits) (length line.now.bits / 193))
        (FirstWrong (frame_right (f_bits_of frame) (frames_of frame) line.now.bits) (length line.now.bits / 193)) }
{
    match frame {
        Frame1::Super => first_wrong::<SfPlan>(line),
        Frame1::Extended => first_wrong::<EsfPlan>(line),
    }
}

/// The first wrong frame of a line of whole superframes of a plan, if one is wrong.
fn first_wrong<P: InSuperframe>(line: &Packed) -> Option<usize>
    requires { length line.now.bits / 193 % P.PLAN.frames ≡ 0 }
    ensures { MatchOption result
        (AreRight (frame_right P.f_bits P.PLAN.frames line.now.bits) (length line.now.bits / 193))
        (FirstWrong (frame_right P.f_bits P.PLAN.frames line.now.bits) (length line.now.bits / 193)) }
{
    let count = line.len() / 193;
    let frames = P::PLAN.frames as usize;
    let mut sent = 0;
    let mut first = 0;
    while count - first >= frames {
        if let Some(wrong) = wrong_in::<P>(line, first, sent) {
            return Some(wrong);
        }
        sent = word_of(P::PLAN.frames, line, 193 * first);
        first += frames;
    }
    None
}

/// The first wrong frame of the superframe that begins with the frame of this number and sends the word, if one is wrong.
fn wrong_in<P: InSuperframe>(line: &Packed, first: usize, sent: u8) -> Option<usize>
    requires whole { P.PLAN.frames * (first / P.PLAN.frames) ≡ first }
    requires within { 193 * first + 193 * P.PLAN.frames ≤ length line.now.bits }
    requires before { AreRight (frame_right P.f_bits P.PLAN.frames line.now.bits) first }
    requires sends { sent ≡ sent_word P.PLAN.frames line.now.bits (first / P.PLAN.frames) }
    ensures { MatchOption result
        (AreRight (frame_right P.f_bits P.PLAN.frames line.now.bits) (first + P.PLAN.frames))
        (FirstWrong (frame_right P.f_bits P.PLAN.frames line.now.bits) (length line.now.bits / 193)) }
{
    // a place fits, since a length does
    let _fits = line.len();
    for place in 0..P::PLAN.frames {
        let frame = first + place as usize;
        let bit = line.get(193 * frame);
        if !fits(P::f_bit(place as u8), sent, place, bit) {
            return Some(frame);
        }
    }
    None
}

/// The payload of the whole frames of a line.
fn payload_of(alloc: Global, line: &Packed) -> Result<Vec<u8>, AllocError>
    ensures { IfOk result (λ v. v.items ≡ bytes_of (line_payload line.now.bits (length line.now.bits / 193))) }
{
    let frames = line.len() / 193;
    let mut payload = Packed::open(alloc, 192 * frames)?;
    append_payload(&mut payload, line, frames);
    payload.to_bytes(alloc)
}

/// Appends the payload of the first so many frames of a line.
pub(crate) fn append_payload(payload: &mut Packed, line: &Packed, frames: usize)
    requires within { 193 * frames ≤ length line.now.bits }
    requires room { length payload.old.bits + 192 * frames ≤ payload.old.capacity }
    ensures payload { payload.new ≡ record payload.old { bits = payload.old.bits ++ line_payload line.now.bits frames } }
    ensures long { length payload.new.bits ≡ length payload.old.bits + 192 * frames }
{
    // a place fits, since a length does
    let _fits = line.len();
    for frame in 0..frames {
        payload.append_from(line, 193 * frame + 1, 192);
    }
}
