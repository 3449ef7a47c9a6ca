//! Words of up to 64 bits.

ghost use Rattle.std.specs.Prelude.{◌≡◌, ◌+◌, ◌-◌, ◌^◌, ◌<◌, ◌≤◌, ◌∷◌, [], ◌++◌, false, length, take, drop, get_or, count_by, MatchOption};
ghost use Rattle.pdh_bits.specs.Bits.{number_of};
ghost use Rattle.pdh_packed.specs.Words.{low_bits};

use std::marker::Model;

/// Up to 64 bits. The number that they write, the first bit the most significant, stands for them.
#[derive(Clone, Copy)]
pub struct Word {
    number: u64,
    count: u32,
}

impl Model for Word {
    ghost use Rattle.std.specs.Prelude.{◌<◌, ◌≤◌, ◌^◌, List, Bool, length};
    ghost use Rattle.pdh_bits.specs.Bits.{number_of};
    ghost use Rattle.pdh_packed.specs.Words.{low_bits};
    ghost use Rattle.pdh_packed.specs.WordLaws.{number_of-low_bits, length-low_bits};

    ghost Value = { List Bool };

    ghost view = { λ w. low_bits w.count w.number };

    ghost invariant = { λ w. (w.count ≤ 64) × (w.number < 2 ^ w.count) };

    ghost inverse = { λ bits. record { number = number_of bits; count = length bits } };

    ghost inverse_ok = { λ w h i. record {
      number = number_of-low_bits w.count w.number h.1 i;
      count = length-low_bits w.count w.number i;
    } };
}

#[tactic(auto, using(crate::specs::WordLaws::word_laws))]
impl Word {
    /// No bits.
    pub fn empty() -> Word
        ensures { result ≡ [] }
    {
        Word {
            number: 0,
            count: 0,
        }
    }

    /// The low bits of a number that has no higher ones, so many, the most significant first.
    pub fn of(number: u64, count: u32) -> Word
        requires within { count ≤ 64 }
        requires small { number < 2 ^ count }
        ensures bits { result ≡ low_bits count number }
        ensures count { length result ≡ count }
    {
        Word { number, count }
    }

    /// These bits, at most 64.
    pub fn of_bits(bits: &[bool]) -> Word
        requires { length bits.now ≤ 64 }
        ensures { result ≡ bits.now }
    {
        let mut word = Word::empty();
        for bit in bits {
            word.push(*bit);
        }
        word
    }

    /// How many bits there are, at most 64.
    pub fn len(&self) -> u32
        ensures count { result ≡ length self.now }
        ensures bounded { length self.now ≤ 64 }
    {
        self.count
    }

    /// The number that the bits write.
    pub fn number(&self) -> u64
        ensures value { result ≡ number_of self.now }
        ensures bits { low_bits (length self.now) result ≡ self.now }
        ensures small { result < 2 ^ length self.now }
    {
        self.number
    }

    /// How many of the bits are 1.
    pub fn ones(&self) -> u32
        ensures { result ≡ count_by (λ bit. bit) self.now }
    {
        self.number.count_ones()
    }

    /// The bit at a place.
    pub fn get(&self, place: u32) -> bool
        requires { place < length self.now }
        ensures { result ≡ get_or self.now place false }
    {
        (self.number >> (self.count - 1 - place)) % 2 == 1
    }

    /// The first bits, so many.
    pub fn first(&self, count: u32) -> Word
        requires { count ≤ length self.now }
        ensures { result ≡ take count self.now }
    {
        if count == 0 {
            return Word::empty();
        }
        Word {
            number: self.number >> (self.count - count),
            count,
        }
    }

    /// The bits after the first, so many.
    pub fn after(&self, count: u32) -> Word
        requires { count ≤ length self.now }
        ensures { result ≡ drop count self.now }
    {
        if count == 0 {
            return *self;
        }
        let left = self.count - count;
        Word {
            number: self.number & ((1 << left) - 1),
            count: left,
        }
    }

    /// So many of the bits, from a place on.
    pub(crate) fn part(&self, place: u32, count: u32) -> Word
        requires { place + count ≤ length self.now }
        ensures { result ≡ take count (drop place self.now) }
    {
        if count == 0 {
            return Word::empty();
        }
        Word {
            number: (self.number << (place + (64 - self.count))) >> (64 - count),
            count,
        }
    }

    /// The bits but that at a place.
    pub(crate) fn without(&self, place: u32) -> Word
        requires { place < length self.now }
        ensures { result ≡ take place self.now ++ drop (place + 1) self.now }
    {
        // at most 64 bits
        let _few = self.len();
        self.first(place).join(self.after(place + 1))
    }

    /// These bits and then the others.
    pub fn join(&self, other: Word) -> Word
        requires { length self.now + length other ≤ 64 }
        ensures { result ≡ self.now ++ other }
    {
        if self.count == 0 {
            return other;
        }
        Word {
            number: (self.number << other.count) + other.number,
            count: self.count + other.count,
        }
    }

    /// Appends a bit.
    pub fn push(&mut self, bit: bool)
        requires { length self.old < 64 }
        ensures { self.new ≡ self.old ++ bit ∷ [] }
    {
        self.number = 2 * self.number + u64::from(bit);
        self.count += 1;
    }
    /// Appends bits to fewer than 64. Where that makes 64 or more, the first 64 of them leave as the
    /// number that they write.
    pub(crate) fn fill(&mut self, word: Word) -> Option<u64>
        requires { length self.old < 64 }
        ensures bits { MatchOption result (self.new ≡ self.old ++ word) (λ full. low_bits 64 full ++ self.new ≡ self.old ++ word) }
        ensures few { length self.new < 64 }
    {
        let room = 64 - self.len();
        if word.len() < room {
            *self = self.join(word);
            return None;
        }
        let full = self.join(word.first(room)).number();
        *self = word.after(room);
        Some(full)
    }

    /// The 64 bits that these, at least one and fewer than 64, make with the first of a number.
    pub(crate) fn filled(&self, number: u64) -> u64
        requires { (0 < length self.now) × (length self.now < 64) }
        ensures { low_bits 64 result ≡ self.now ++ take (64 - length self.now) (low_bits 64 number) }
    {
        (self.number << (64 - self.count)).wrapping_add(number >> self.count)
    }

    /// Appends the 64 bits of a number to fewer than 64. The first 64 of them leave as the number that
    /// they write.
    pub(crate) fn fill_whole(&mut self, number: u64) -> u64
        requires { length self.old < 64 }
        ensures bits { low_bits 64 result ++ self.new ≡ self.old ++ low_bits 64 number }
        ensures count { length self.new ≡ length self.old }
    {
        let held = self.count;
        if held == 0 {
            return number;
        }
        let full = self.filled(number);
        self.number = number & ((1 << held) - 1);
        full
    }

    /// So many of the bits of two words that follow each other, from a place on.
    pub(crate) fn across(&self, next: Word, place: u32, count: u32) -> Word
        requires few { count ≤ 64 }
        requires begun { place ≤ length self.now }
        requires within { place + count ≤ length self.now + length next }
        ensures { result ≡ take count (drop place (self.now ++ next)) }
    {
        let front = self.after(place);
        if count <= front.len() {
            return front.first(count);
        }
        front.join(next.first(count - front.len()))
    }
}
