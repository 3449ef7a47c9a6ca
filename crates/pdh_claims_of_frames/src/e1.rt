//! What callers may rely on of framed 2048 kbit/s streams with CRC-4.

ghost use Rattle.std.specs.Prelude.{◌≡◌, ◌<◌, ℕ, true, false, [], ◌∷◌, slice_index, IfOk, IsErr, Err};
ghost use Rattle.pdh_bits.specs.Bits.{bit, number_of};
ghost use Rattle.pdh_e1.specs.Codec.{frames_of, payload_of};
ghost use Rattle.pdh_e1.specs.Multiframe.{frame_right, word_of};

use pdh_e1::{PackFault, UnpackFault, crc4_after, pack, unpack};
use std::alloc::Global;

/// Frame 6 of a packed line begins with a C bit of 0 and the frame alignment signal 0011011.
pub fn alignment_bit_wrong(alloc: Global, payload: &[u8]) -> Result<Vec<u8>, PackFault>
    ensures { IfOk result (λ line. 6 < frames_of line.items → slice_index line.items 192 ≡ 0x1B) }
{
    pack(alloc, payload)
}

/// Frame 8 of a packed line begins with the most significant bit of the word of the sub-multiframe before it.
pub fn check_bits_in_reverse(alloc: Global, payload: &[u8]) -> Result<Vec<u8>, PackFault>
    ensures { IfOk result (λ line. 8 < frames_of line.items
        → slice_index line.items 256 ≡ number_of (bit (word_of line.items 0) 3 ∷ false ∷ false ∷ true ∷ true ∷ false ∷ true ∷ true ∷ [])) }
{
    pack(alloc, payload)
}

/// The first sub-multiframe sends the word 0000, whatever its own is: a line that begins with a C bit of 1 isn't unpacked.
pub fn crc_of_this_sub_multiframe(alloc: Global, line: &[u8]) -> Result<Vec<u8>, UnpackFault>
    requires some { 0 < frames_of line.now }
    requires first { slice_index line.now 0 ≡ 0x9B }
    ensures { IsErr result }
{
    unpack(alloc, line)
}

/// An E bit may be 0: a frame 13 that is else as it is packed isn't wrong.
pub fn error_bits_fixed(alloc: Global, line: &[u8]) -> Result<Vec<u8>, UnpackFault>
    requires { slice_index line.now 416 ≡ 0x5F }
    ensures { result ≡ Err (UnpackFault.Wrong 13) → ⊥ }
{
    unpack(alloc, line)
}

/// The word of an octet of 1 is the remainder of x^4, divided by x^4 + x + 1.
pub fn feedback_of_another_polynomial(octets: &[u8]) -> u8
    requires { octets.now ≡ 1 ∷ [] }
    ensures { result ≡ 0b0011 }
{
    crc4_after(0, octets)
}

/// A packed line carries all octets of its payload: octets that don't fill a multiframe aren't left out.
pub fn not_whole_by_frames(alloc: Global, payload: &[u8]) -> Result<Vec<u8>, PackFault>
    ensures { IfOk result (λ line. payload_of line.items ≡ payload.now) }
{
    pack(alloc, payload)
}

/// The frame that is told is wrong.
pub fn wrong_frame_counted_from_one(alloc: Global, line: &[u8]) -> Result<Vec<u8>, UnpackFault>
    ensures { (frame : ℕ) → result ≡ Err (UnpackFault.Wrong frame) → frame_right line.now frame ≡ false }
{
    unpack(alloc, line)
}
