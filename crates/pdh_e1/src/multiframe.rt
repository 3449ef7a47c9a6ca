//! The first octets of the frames of a multiframe.

ghost use Rattle.std.specs.Prelude.{◌≡◌, ◌+◌, ◌*◌, ◌<◌, ◌≤◌, length};
ghost use Rattle.pdh_e1.specs.Multiframe.{octet_right, packed_octet, sent_word};

use crate::crc::crc4_after;

/// The first octets of the frames of a multiframe whose C bits are 0, without alarm and with ones in the Sa and E bits.
const FIRST_OCTETS: [u8; 16] = [
    0x1B, 0x5F, 0x1B, 0x5F, 0x1B, 0xDF, 0x1B, 0x5F, 0x1B, 0xDF, 0x1B, 0xDF, 0x1B, 0xDF, 0x1B, 0xDF,
];

/// Which of their bits are the same in each right multiframe, C bits among them.
const FIXED_BITS: [u8; 16] = [
    0xFF, 0xC0, 0xFF, 0xC0, 0xFF, 0xC0, 0xFF, 0xC0, 0xFF, 0xC0, 0xFF, 0xC0, 0xFF, 0x40, 0xFF, 0x40,
];

/// The first octet of a frame of this number in the multiframe that sends the word, without alarm and with ones in the
/// Sa and E bits.
pub(crate) fn first_octet(frame: usize, word: u8) -> u8
    requires in_multiframe { frame < 16 }
    requires four_bits { word < 16 }
    ensures { result ≡ packed_octet frame word }
{
    let octet = FIRST_OCTETS[frame];
    if frame % 2 == 1 {
        return octet;
    }
    let check = (word >> (3 - frame % 8 / 2)) % 2;
    octet | (128 * check)
}

/// Whether a frame of this number in the multiframe that sends the word may have this first octet.
pub(crate) fn is_right(frame: usize, word: u8, octet: u8) -> bool
    requires in_multiframe { frame < 16 }
    requires four_bits { word < 16 }
    ensures { result ≡ octet_right frame word octet }
{
    let difference = octet ^ first_octet(frame, word);
    difference & FIXED_BITS[frame] == 0
}

/// The word that the sub-multiframe of this number sends in the line: that of the one before, and 0 in the first.
pub(crate) fn sent_word(line: &[u8], number: usize) -> u8
    requires { 256 * number ≤ length line.now }
    ensures word { result ≡ sent_word line.now number }
    ensures four_bits { result < 16 }
{
    if number == 0 {
        return 0;
    }
    let mut octets = [0u8; 256];
    octets.copy_from_slice(&line[256 * number - 256..256 * number]);
    octets[0] %= 128;
    octets[64] %= 128;
    octets[128] %= 128;
    octets[192] %= 128;
    crc4_after(0, &octets)
}
