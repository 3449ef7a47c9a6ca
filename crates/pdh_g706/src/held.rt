//! What the bits that are held say of an alignment. They are cut into frames from the oldest on.

ghost use Rattle.std.specs.Prelude.{◌≡◌, ◌<◌, ◌≤◌, ◌+◌, ◌*◌, ◌-◌, ◌%◌, ◌/◌, ℕ, Bool, true, false, if◌then◌else◌, List, ◌∷◌, ◌++◌, map, take, drop, length, IsTrue, MatchOption, OnOk, OnErr};
ghost use Rattle.std.specs.Bool.{beq};
ghost use Rattle.std.specs.List.{range_with_len};
ghost use Rattle.pdh_packed.specs.Words.{low_bits};
ghost use Rattle.pdh_e1.specs.Crc4.{crc4, cleared};
ghost use Rattle.pdh_edge.specs.Ports.{Puts, PutsPart, HasCause, for_leaf};
ghost use Rattle.pdh_g706.specs.Frames.{frames_of, has_signal as has_signal_in, is_confirmed as is_confirmed_in};
ghost use Rattle.pdh_g706.specs.Alignment.{loses as loses_in, has_multi as has_multi_in, earlier as earlier_in, reaches, sent_check as sent_check_in, errs as errs_in};
ghost use Rattle.pdh_g706.specs.Machine.{payload_from};

use crate::payload::Payload;
use pdh_e1::crc4_after;
use pdh_edge::{Drain, Failed};
use pdh_packed::{BitRing, Word};

/// The frame alignment signal (G.704, table 5A).
const ALIGNMENT_SIGNAL: u64 = 0b0011011;

/// The multiframe alignment signal (G.704, table 5B).
const MULTIFRAME_SIGNAL: [bool; 6] = [false, false, true, false, true, true];

// Whether the frame that begins at this bit has the alignment signal.
fn has_signal(held: &BitRing, start: u32) -> bool
    requires { start + 256 ≤ length held.now.bits }
    ensures { result ≡ has_signal_in (take 256 (drop start held.now.bits)) }
{
    // a place fits, since a length does
    let _fits = held.held();
    held.read(start + 1, 7).number() == ALIGNMENT_SIGNAL
}

/// Whether three whole frames that are held confirm the oldest position. A frame is looked at only where those before it
/// are right.
pub(crate) fn is_confirmed(held: &BitRing) -> bool
    requires { 768 ≤ length held.now.bits }
    ensures { result ≡ is_confirmed_in held.now.bits }
{
    if !has_signal(held, 0) {
        return false;
    }
    if !held.bit(257) {
        return false;
    }
    has_signal(held, 512)
}

// The bits that are this one.
fn equal_bits(bits: Word, bit: bool) -> Word
    ensures { result ≡ map (λ b. beq b bit) bits }
{
    if bit {
        return bits;
    }
    bits.inverted()
}

// Whether the alignment signal stands in a frame that begins at this bit, and in one at each of the 63 bits after it.
fn signals_from(held: &BitRing, start: u32) -> Word
    requires { start + 71 ≤ length held.now.bits }
    ensures { result ≡ map (λ p. has_signal_in (drop (start + p) held.now.bits)) (range_with_len 0 64) }
{
    // a place fits, since a length does
    let _fits = held.held();
    let signal = Word::of(ALIGNMENT_SIGNAL, 7);
    let front = held.read(start + 1, 64);
    let behind = held.read(start + 65, 6);
    let mut stand = Word::copies(true, 64);
    for place in 0..7 {
        let bits = front.after(place).join(behind.first(place));
        stand = stand.and(equal_bits(bits, signal.get(place)));
    }
    stand
}

/// How many of the oldest positions that are held, one after another and up to 64, no bits that come can confirm.
pub(crate) fn rejected(held: &BitRing) -> u32
    requires { 767 ≤ length held.now.bits }
    ensures few { result ≤ 64 }
    ensures none { (p : ℕ) → p < result → (more : List Bool) → is_confirmed_in (drop p held.now.bits ++ more) ≡ false }
{
    let first = signals_from(held, 0);
    if first.leading_zeros() == 64 {
        return 64;
    }
    let second = held.read(257, 64);
    let third = signals_from(held, 512);
    first.and(second).and(third).leading_zeros()
}

/// Whether basic alignment is lost with the last of the frames that are held.
pub(crate) fn loses(held: &BitRing) -> bool
    requires { length held.now.bits % 256 ≡ 0 }
    ensures loses { result ≡ loses_in (frames_of held.now.bits) }
    ensures long { result ≡ true → 1280 ≤ length held.now.bits }
{
    let frames = held.held() / 256;
    if frames < 5 {
        return false;
    }
    if frames % 2 == 0 {
        return false;
    }
    if has_signal(held, 256 * (frames - 1)) {
        return false;
    }
    if has_signal(held, 256 * (frames - 3)) {
        return false;
    }
    !has_signal(held, 256 * (frames - 5))
}

// Whether the multiframe alignment signal stands in the odd frames from this frame on.
fn has_multi(held: &BitRing, frame: u32) -> bool
    requires { 256 * frame + 3072 ≤ length held.now.bits }
    ensures { result ≡ has_multi_in (frames_of held.now.bits) frame }
{
    // a place fits, since a length does
    let _fits = held.held();
    for number in 0..6 {
        if held.bit(256 * (frame + 2 * number + 1)) != MULTIFRAME_SIGNAL[number as usize] {
            return false;
        }
    }
    true
}

// The first frame before this one by a multiple of 16 at which the multiframe alignment signal stands, or this one.
fn earlier(held: &BitRing, second: u32) -> u32
    requires { 256 * second + 2816 ≤ length held.now.bits }
    ensures { result ≡ earlier_in (frames_of held.now.bits) second }
{
    for first in 0..second {
        if (second - first) % 16 == 0 {
            if has_multi(held, first) {
                return first;
            }
        }
    }
    second
}

/// The first frame of the first multiframe, where multiframe alignment is reached with the last of the frames that are
/// held.
pub(crate) fn first_multiframe(held: &BitRing) -> Option<u32>
    requires whole { length held.now.bits % 256 ≡ 0 }
    requires few { length held.now.bits ≤ 16384 }
    ensures { MatchOption result (reaches (frames_of held.now.bits) ≡ false)
        (λ first. (reaches (frames_of held.now.bits) ≡ true)
        × (first ≡ earlier_in (frames_of held.now.bits) (length held.now.bits / 256 - 12))
        × (256 * first + 7168 ≤ length held.now.bits)) }
{
    let frames = held.held() / 256;
    if frames < 12 {
        return None;
    }
    let second = frames - 12;
    if second % 2 == 1 {
        return None;
    }
    if !has_multi(held, second) {
        return None;
    }
    let first = earlier(held, second);
    if first == second {
        return None;
    }
    Some(first)
}

// The number that the C bits of the sub-multiframe that begins at this bit write.
fn sent_check(held: &BitRing, start: u32) -> u8
    requires { start + 2048 ≤ length held.now.bits }
    ensures { result ≡ sent_check_in (take 2048 (drop start held.now.bits)) }
{
    // a place fits, since a length does
    let _fits = held.held();
    8 * u8::from(held.bit(start))
        + 4 * u8::from(held.bit(start + 512))
        + 2 * u8::from(held.bit(start + 1024))
        + u8::from(held.bit(start + 1536))
}

// The number that 64 bits from a place on write, of which the first counts as 0 where it is a C bit.
fn counted(held: &BitRing, place: u32, is_check: bool) -> u64
    requires { place + 64 ≤ length held.now.bits }
    ensures { low_bits 64 result ≡ (if is_check then false ∷ take 63 (drop (place + 1) held.now.bits)
        else take 64 (drop place held.now.bits)) }
{
    // a place fits, since a length does
    let _fits = held.held();
    if is_check {
        return held.read(place + 1, 63).number();
    }
    held.read(place, 64).number()
}

// The word of the sub-multiframe that begins at this bit.
fn word_of(held: &BitRing, start: u32) -> u8
    requires { start + 2048 ≤ length held.now.bits }
    ensures { result ≡ crc4 (cleared (take 2048 (drop start held.now.bits))) }
{
    // a place fits, since a length does
    let _fits = held.held();
    let mut word = 0;
    for index in 0..32 {
        let number = counted(held, start + 64 * index, index % 8 == 0);
        word = crc4_after(word, &number.to_be_bytes());
    }
    word
}

/// Whether the C bits after the sub-multiframe that begins with this frame aren't its word.
pub(crate) fn errs(held: &BitRing, frame: u32) -> bool
    requires { 256 * frame + 4096 ≤ length held.now.bits }
    ensures { result ≡ errs_in (frames_of held.now.bits) frame }
{
    // a place fits, since a length does
    let _fits = held.held();
    sent_check(held, 256 * frame + 2048) != word_of(held, 256 * frame)
}

/// Puts the payload of so many frames from this frame on to the drain: all their bits but the first eight of each.
/// `payload` holds that of each frame on its way.
pub(crate) fn put_frames<D: Drain>(
    held: &BitRing,
    frame: u32,
    count: u32,
    payload: &mut Payload,
    drain: &mut D,
) -> Result<(), Failed>
    requires whole { 256 * frame + 256 * count ≤ length held.now.bits }
    requires list { IsTrue ((D.outputs drain.old).holds 0) }
    ensures put { OnOk result (Puts (for_leaf 0 (payload_from (frames_of held.now.bits) frame count))
        (D.outputs drain.old) (D.outputs drain.new)) }
    ensures part { OnErr result (PutsPart (for_leaf 0 (payload_from (frames_of held.now.bits) frame count))
        (D.outputs drain.old) (D.outputs drain.new)) }
    ensures cause { HasCause (D.drain_faults drain.old) (D.drain_faults drain.new) result }
    ensures drained { D.drained drain.old drain.new }
{
    // a place fits, since a length does
    let _fits = held.held();
    for number in 0..count {
        payload.load(held, 256 * (frame + number));
        drain.put_all(0, payload.bits())?;
    }
    Ok(())
}
