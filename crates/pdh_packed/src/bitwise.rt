//! What is done to the bits of words place by place.

ghost use Rattle.std.specs.Prelude.{◌≡◌, ◌≤◌, length, map, not, replicate};
ghost use Rattle.std.specs.List.{prefix_len};
ghost use Rattle.pdh_packed.specs.Places.{both, either, differing};

use crate::word::Word;

impl Word {
    /// So many copies of a bit, at most 64.
    pub fn copies(bit: bool, count: u32) -> Word
        requires { count ≤ 64 }
        ensures { result ≡ replicate count bit }
    {
        if !bit || count == 0 {
            return Word::of(0, count);
        }
        Word::of(u64::MAX >> (64 - count), count)
    }

    /// Place by place, whether both of two words of one length have a 1.
    pub fn and(&self, other: Word) -> Word
        requires { length self.now ≡ length other }
        ensures { result ≡ both self.now other }
    {
        Word::of(self.number() & other.number(), self.len())
    }

    /// Place by place, whether one of two words of one length has a 1.
    pub fn or(&self, other: Word) -> Word
        requires { length self.now ≡ length other }
        ensures { result ≡ either self.now other }
    {
        Word::of(self.number() | other.number(), self.len())
    }

    /// Place by place, whether two words of one length differ.
    pub fn xor(&self, other: Word) -> Word
        requires { length self.now ≡ length other }
        ensures { result ≡ differing self.now other }
    {
        Word::of(self.number() ^ other.number(), self.len())
    }

    /// The other bit at each place.
    pub fn inverted(&self) -> Word
        ensures { result ≡ map not self.now }
    {
        self.xor(Word::copies(true, self.len()))
    }

    /// How many zeros stand before the first 1, or how many bits there are where none is 1.
    pub fn leading_zeros(&self) -> u32
        ensures { result ≡ prefix_len not self.now }
    {
        self.number().leading_zeros() - (64 - self.len())
    }
}
