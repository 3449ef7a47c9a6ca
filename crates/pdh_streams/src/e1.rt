//! The codec of CRC-4 multiframes, and what its commands say.

ghost use Rattle.std.specs.Prelude.{◌≡◌};
ghost use Rattle.pdh_streams.specs.E1.{pack_says as pack_text, unpack_says as unpack_text};

use crate::codec::{Codec, Found};
use crate::texts::{counted_line, found_line};
use pdh_answers::{Done, File};

/// The codec of CRC-4 multiframes: framed lines of 2048 kbit/s (G.704, 2.3; G.706, 4).
#[derive(Drop)]
pub struct E1;

/// What `e1pack` says of so many octets.
pub(crate) fn pack_says(octets: u64) -> Done
    ensures { result ≡ pack_text octets }
{
    counted_line("e1pack: multiframes ", octets / 496)
}

/// What `e1unpack` says of what was found.
pub(crate) fn unpack_says(found: Found) -> Done
    ensures { result ≡ unpack_text found }
{
    found_line("e1unpack: multiframes ", found)
}

impl Codec for E1 {
    ghost use Rattle.pdh_streams.specs.E1.{e1_codec};

    ghost codec = { λ c. e1_codec };

    fn file(&self) -> File {
        File::E1Line
    }

    fn frames_filled(&self, octets: u64) -> u64 {
        octets / 31
    }

    fn left_over(&self, octets: u64) -> u64 {
        octets % 496
    }

    fn frames_framed(&self, octets: u64) -> u64 {
        octets / 32
    }
}
