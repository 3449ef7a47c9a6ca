//! The codec of superframes and of extended superframes, and what its commands say.

ghost use Rattle.std.specs.Prelude.{◌≡◌};
ghost use Rattle.pdh_streams.specs.Ds1.{pack_says as pack_text, unpack_says as unpack_text};

use crate::codec::{Codec, Found};
use crate::texts::{counted_line, found_line};
use pdh_answers::{Done, File};
use pdh_ds1::Frame1;

/// The codec of superframes, or of extended superframes: DS1 lines of 1544 kbit/s (T1.107).
#[derive(Drop)]
pub(crate) struct Ds1 {
    /// The form of the line.
    pub(crate) form: Frame1,
}

/// What `ds1pack` says of so many octets.
pub(crate) fn pack_says(form: Frame1, octets: u64) -> Done
    ensures { result ≡ pack_text form octets }
{
    match form {
        Frame1::Super => counted_line("ds1pack sf: superframes ", octets / 24 / 12),
        Frame1::Extended => counted_line("ds1pack esf: superframes ", octets / 24 / 24),
    }
}

/// What `ds1unpack` says of what was found.
pub(crate) fn unpack_says(form: Frame1, found: Found) -> Done
    ensures { result ≡ unpack_text form found }
{
    match form {
        Frame1::Super => counted_line("ds1unpack sf: superframes ", found.delivered),
        Frame1::Extended => found_line("ds1unpack esf: superframes ", found),
    }
}

impl Codec for Ds1 {
    ghost use Rattle.pdh_streams.specs.Ds1.{ds1_codec};

    ghost codec = { λ c. ds1_codec c.form };

    fn file(&self) -> File {
        File::Ds1Line
    }

    fn frames_filled(&self, octets: u64) -> u64 {
        octets / 24
    }

    fn left_over(&self, octets: u64) -> u64 {
        octets % 576
    }

    fn frames_framed(&self, octets: u64) -> u64 {
        // eight times so many octets may be more than a number holds
        8 * (octets / 193) + 8 * (octets % 193) / 193
    }
}
