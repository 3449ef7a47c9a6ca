//! The part of a recording that is looked at.

ghost use Rattle.std.specs.Prelude.{◌≡◌};
ghost use Rattle.pdh_recording.specs.Parts.{leading, passed_over};

/// How many bits are looked at, at most.
pub(crate) const PART_BITS: u64 = 1_048_576;

/// How many bytes are kept for that: the first and the last one may be cut.
pub(crate) const PART_BYTES: usize = 131_073;

/// The part of a recording that is looked at, before anything is read of it.
#[derive(Clone, Copy, Debug)]
pub struct Part<'a> {
    /// Its bytes.
    pub bytes: &'a [u8],
    /// The first bit of them that is looked at, below 8.
    pub first: u32,
    /// How many bits are looked at.
    pub bits: u64,
    /// The byte of which the whole recording consists, 0 or 255, if it consists of one.
    pub constant: Option<u8>,
}

/// How many bytes at the beginning are passed over: all but the last of those that are all 255 or all 0.
pub(crate) fn passed_over(bytes: &[u8]) -> usize
    ensures { result ≡ passed_over bytes.now }
{
    let Some(first) = bytes.first() else {
        return 0;
    };
    if *first != 0 && *first != 255 {
        return 0;
    }
    leading(*first, &bytes[1..])
}

// How many bytes at the beginning are this one.
fn leading(byte: u8, bytes: &[u8]) -> usize
    ensures { result ≡ leading byte bytes.now }
{
    for index in 0..bytes.len() {
        if bytes[index] != byte {
            return index;
        }
    }
    bytes.len()
}
