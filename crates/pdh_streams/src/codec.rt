//! Codecs: what a framed line's frames are, and what is found in one.

ghost use Rattle.std.specs.Prelude.{◌≡◌, ◌*◌, ◌/◌, ◌%◌, ◌^◌, ◌<◌, ◌≤◌};
ghost use Rattle.pdh_shape.specs.OwnNumbers.{most_frames};
ghost use Rattle.pdh_streams.specs.Codecs.{FrameCodec};

use pdh_answers::File;

/// What is found in a framed line.
#[derive(Clone, Copy, Debug, PartialEq, Eq)]
pub struct Found {
    /// The delivered multiframes or superframes. At `u64::MAX` the count stands.
    pub delivered: u64,
    /// The judged blocks. At `u64::MAX` the count stands.
    pub blocks: u64,
    /// The errored ones among them. At `u64::MAX` the count stands.
    pub errored: u64,
}

/// A codec of framed lines.
pub trait Codec: Drop {
    /// What it makes of payloads and of lines.
    ghost codec: { Self → FrameCodec };

    /// The file of the line.
    fn file(&self) -> File
        ensures { result ≡ (codec self.now).file };

    /// How many frames so many octets of a payload fill.
    fn frames_filled(&self, octets: u64) -> u64
        ensures count { result ≡ octets / (codec self.now).frame_octets }
        ensures short { result ≤ most_frames → 8 * octets < 2 ^ 63 };

    /// How many of so many octets of a payload are over, behind those that fill whole multiframes or superframes.
    fn left_over(&self, octets: u64) -> u64
        ensures { result ≡ octets % (codec self.now).whole_octets };

    /// How many whole frames a line of so many octets holds.
    fn frames_framed(&self, octets: u64) -> u64
        ensures count { result ≡ 8 * octets / (codec self.now).frame_bits }
        ensures short { result ≤ most_frames → 8 * octets < 2 ^ 63 };
}
