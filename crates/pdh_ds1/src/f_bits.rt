//! The F bits that are sent, and those that may be received.

ghost use Rattle.std.specs.Prelude.{◌≡◌, ◌<◌};
ghost use Rattle.pdh_ds1.specs.Packing.{crc_place as crc_place_of, packed_bit as packed_bit_of, fits as fits_in};

use pdh_shape::Role;

/// The bit of the word that a frame of this number in the superframe carries: the most significant in the second frame.
fn crc_place(word: u8, frame: u32) -> bool
    requires { frame < 24 }
    ensures { result ≡ crc_place_of word frame }
{
    (word >> (5 - frame / 4)) % 2 == 1
}

/// The F bit that a packer puts in a frame of this number in the superframe that sends the word.
pub(crate) fn packed_bit(role: Role, word: u8, frame: u32) -> bool
    requires { frame < 24 }
    ensures { result ≡ packed_bit_of word frame role }
{
    match role {
        Role::Align(signal) => signal,
        Role::Service(1) => crc_place(word, frame),
        _ => true,
    }
}

/// Whether the F bit of a frame of this number in the superframe that sends the word may be this bit.
pub(crate) fn fits(role: Role, word: u8, frame: u32, bit: bool) -> bool
    requires { frame < 24 }
    ensures { result ≡ fits_in word frame role bit }
{
    match role {
        Role::Align(signal) => signal == bit,
        Role::Service(1) => crc_place(word, frame) == bit,
        _ => true,
    }
}
