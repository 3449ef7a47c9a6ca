//! The CRC-6 words of superframes of a line.

ghost use Rattle.std.specs.Prelude.{◌≡◌, ◌+◌, ◌*◌, ◌<◌, ◌≤◌, List, Bool, true, ◌∷◌, ◌++◌, length, take, drop};
ghost use Rattle.pdh_ds1.specs.Crc6.{crc6};
ghost use Rattle.pdh_ds1.specs.Packing.{word_of as word_of_bits};

use crate::crc::{crc6_after, with_bit};
use pdh_packed::Packed;

/// The word of bits and of those of the frame that begins at this place, whose F bit counts as 1.
fn with_frame(before: u8, line: &Packed, start: usize) -> u8
    requires six_bits { before < 64 }
    requires within { start + 193 ≤ length line.now.bits }
    ensures word { (bits : List Bool) → before ≡ crc6 bits
        → result ≡ crc6 (bits ++ true ∷ take 192 (drop (start + 1) line.now.bits)) }
    ensures six_bits { result < 64 }
{
    // a place fits, since a length does
    let _fits = line.len();
    let first = with_bit(before, true);
    let second = crc6_after(first, &line.read_whole(start + 1).to_be_bytes());
    let third = crc6_after(second, &line.read_whole(start + 65).to_be_bytes());
    crc6_after(third, &line.read_whole(start + 129).to_be_bytes())
}

/// The word of the superframe of so many frames that begins at this place.
pub fn word_of(frames: u32, line: &Packed, start: usize) -> u8
    requires few { frames ≤ 24 }
    requires within { start + 193 * frames ≤ length line.now.bits }
    ensures word { result ≡ word_of_bits frames (drop start line.now.bits) }
    ensures six_bits { result < 64 }
{
    // a place fits, since a length does
    let _fits = line.len();
    let mut word = 0;
    for frame in 0..frames {
        word = with_frame(word, line, start + 193 * frame as usize);
    }
    word
}
