//! Packed lists that take a bit, or as many bits as there is room for.

ghost use Rattle.std.specs.Prelude.{◌≡◌, ◌+◌, ◌-◌, ◌<◌, ◌≤◌, ◌∷◌, [], ◌++◌, length, min, take, drop};

use crate::packed::Packed;
use crate::word::Word;

impl Packed {
    /// Appends a bit, for which there is room.
    pub fn push(&mut self, bit: bool)
        requires { length self.old.bits < self.old.capacity }
        ensures { self.new ≡ record self.old { bits = self.old.bits ++ bit ∷ [] } }
    {
        let mut word = Word::empty();
        word.push(bit);
        self.append(word);
    }

    /// Appends as many bits of another list from a place on as there is room for, and answers how many.
    pub fn append_some(&mut self, other: &Packed, place: usize) -> usize
        requires { place ≤ length other.now.bits }
        ensures count { result ≡ min (length other.now.bits - place) (self.old.capacity - length self.old.bits) }
        ensures within { length self.old.bits + result ≤ self.old.capacity }
        ensures bits { self.new ≡ record self.old { bits = self.old.bits ++ take result (drop place other.now.bits) } }
    {
        let count = (other.len() - place).min(self.capacity() - self.len());
        self.append_from(other, place, count);
        count
    }
}
