//! Words of 64 bits that begin with bits of a packed list, for those who look at no others.

ghost use Rattle.std.specs.Prelude.{◌≡◌, ◌+◌, ◌≤◌, length, take, drop};

use crate::packed::Packed;
use crate::word::Word;

impl Packed {
    /// A word of 64 bits that begins with the bits from a place on, so many.
    #[inline(always)]
    pub fn read_padded(&self, place: usize, count: u32) -> Word
        requires few { count ≤ 64 }
        requires within { place + count ≤ length self.now.bits }
        ensures bits { take count result ≡ take count (drop place self.now.bits) }
        ensures whole { length result ≡ 64 }
    {
        Word::of(self.read_left(place, count), 64)
    }
}
