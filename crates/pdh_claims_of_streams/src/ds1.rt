//! Of DS1 lines in superframes and in extended superframes, packed and received.

ghost use Rattle.std.specs.Prelude.{◌≡◌, ◌≤◌, ℕ, Bool, true, false, List, [], ◌∷◌, ◌++◌, length, IsTrue, IsErr, IfOk, IfSome};
ghost use Rattle.std.specs.List.{slice_range};
ghost use Rattle.pdh_bits.specs.Bits.{bit, bits_of};
ghost use Rattle.pdh_line.specs.Tracking.{track};
ghost use Rattle.pdh_line.specs.Tracking.Piece.{Gap, Delivered};
ghost use Rattle.pdh_ds1.specs.Crc6.{crc6};
ghost use Rattle.pdh_ds1.specs.Packing.{f_bit_of, word_of as word_of_bits};
ghost use Rattle.pdh_ds1.specs.Plans.{ds1_esf};
ghost use Rattle.pdh_ds1.specs.Receiving.{carried_word, judged};
ghost use Rattle.pdh_ds1.specs.View.{form_of, StandsFor};
ghost use Rattle.pdh_ds1.specs.declared.form.Frame1.TheVariants.{Extended};

use pdh_ds1::{Ds1Align, Ds1Esf, Ds1PackFault, Ds1Sf, Frame1, pack, unpack, word_of};
use pdh_edge::{Drain, Failed};
use pdh_packed::Packed;
use pdh_shape::{Marks, Shape};
use std::alloc::Global;

// ---- packing

/// A payload of one frame is refused.
pub fn not_whole_by_frames(
    alloc: Global,
    frame: Frame1,
    payload: &[u8],
) -> Result<Vec<u8>, Ds1PackFault>
    requires { length payload.now ≡ 24 }
    ensures { IsErr result }
{
    pack(alloc, frame, payload)
}

/// The framing bits of an extended superframe are 001011, in every fourth frame.
pub fn sf_framing_in_the_extended_form(
    alloc: Global,
    payload: &[u8],
) -> Result<Vec<u8>, Ds1PackFault>
    requires { length payload.now ≡ 576 }
    ensures { IfOk result (λ v. (f_bit_of (bits_of v.items) 3 ≡ false) × (f_bit_of (bits_of v.items) 7 ≡ false) × (f_bit_of (bits_of v.items) 11 ≡ true)
        × (f_bit_of (bits_of v.items) 15 ≡ false) × (f_bit_of (bits_of v.items) 19 ≡ true) × (f_bit_of (bits_of v.items) 23 ≡ true)) }
{
    pack(alloc, Frame1::Extended, payload)
}

/// The CRC bits of the first superframe of a line are zeros, whatever it carries: here the first and the last of the six.
pub fn crc_of_this_superframe(alloc: Global, payload: &[u8]) -> Result<Vec<u8>, Ds1PackFault>
    requires { length payload.now ≡ 576 }
    ensures { IfOk result (λ v. (f_bit_of (bits_of v.items) 1 ≡ false) × (f_bit_of (bits_of v.items) 21 ≡ false)) }
{
    pack(alloc, Frame1::Extended, payload)
}

/// The CRC bits of the second superframe are the word of the first one, the most significant bit first.
pub fn word_least_bit_first(alloc: Global, payload: &[u8]) -> Result<Vec<u8>, Ds1PackFault>
    requires { length payload.now ≡ 1152 }
    ensures { IfOk result (λ v. (f_bit_of (bits_of v.items) 25 ≡ bit (word_of_bits 24 (bits_of v.items)) 5)
        × (f_bit_of (bits_of v.items) 45 ≡ bit (word_of_bits 24 (bits_of v.items)) 0)) }
{
    pack(alloc, Frame1::Extended, payload)
}

/// What is taken out of a line that was packed is the payload.
pub fn payload_with_the_f_bit(
    alloc: Global,
    frame: Frame1,
    payload: &[u8],
) -> Result<Option<Vec<u8>>, Ds1PackFault>
    ensures { IfOk result (λ unpacked. IfSome unpacked (λ v. v.items ≡ payload.now)) }
{
    let line = pack(alloc, frame, payload)?;
    match unpack(alloc, frame, &line) {
        Ok(unpacked) => Ok(Some(unpacked)),
        Err(_) => Ok(None),
    }
}

/// In a frame's word its F bit counts as 1, whatever it is.
pub fn crc_over_the_f_bits_as_sent(line: &Packed) -> u8
    requires { 193 ≤ length line.now.bits }
    ensures { result ≡ crc6 (true ∷ slice_range line.now.bits 1 193) }
{
    word_of(1, line, 0)
}

// ---- receiving

/// Two wrong framing bits of four in a row lose alignment, in both forms.
pub fn loses_at_three_of_four() -> (bool, bool)
    ensures superframes { result.0 ≡ true }
    ensures extended { result.1 ≡ true }
{
    let right = Marks {
        framing: 0,
        multi: false,
    };
    let first_and_fourth = Marks {
        framing: 9,
        multi: false,
    };
    (
        Ds1Sf::loses(&right, &right, &right, &first_and_fourth),
        Ds1Esf::loses(&right, &right, &right, &first_and_fourth),
    )
}

/// A block isn't errored where the superframe behind it carries its word, whatever it carries itself.
pub fn block_judged_by_itself<D: Drain>(
    align: &mut Ds1Align,
    bits: &Packed,
    drain: &mut D,
) -> Result<u64, Failed>
    requires stands { (line : List Bool) × StandsFor align.old line }
    requires list { IsTrue ((D.outputs drain.old).holds 0) }
    ensures { (line one two : List Bool) (n : ℕ) → StandsFor align.old line → form_of align.old ≡ Extended
        → track ds1_esf (line ++ bits.now.bits) ≡ Gap n ∷ Delivered one ∷ Delivered two ∷ [] → carried_word two ≡ word_of_bits 24 one
        → IfOk result (λ errored. errored ≡ 0) }
{
    align.take(bits, drain)?;
    Ok(align.errored())
}

/// A superframe isn't judged by one of another alignment.
pub fn judged_over_two_alignments<D: Drain>(
    align: &mut Ds1Align,
    bits: &Packed,
    drain: &mut D,
) -> Result<u64, Failed>
    requires stands { (line : List Bool) × StandsFor align.old line }
    requires list { IsTrue ((D.outputs drain.old).holds 0) }
    ensures { (line one two : List Bool) (n m : ℕ) → StandsFor align.old line → form_of align.old ≡ Extended
        → track ds1_esf (line ++ bits.now.bits) ≡ Gap n ∷ Delivered one ∷ Gap m ∷ Delivered two ∷ []
        → IfOk result (λ judged. judged ≡ 0) }
{
    align.take(bits, drain)?;
    Ok(align.blocks())
}

/// A judged block that is right isn't counted as errored.
pub fn blocks_told_as_errored(align: &Ds1Align) -> u64
    ensures { (line : List Bool) → StandsFor align.now line → form_of align.now ≡ Extended → judged ds1_esf line ≡ false ∷ [] → result ≡ 0 }
{
    align.errored()
}
