//! Packed lists: bits in words of 64, with room that is taken before.

ghost use Rattle.std.specs.Prelude.{◌≡◌, ◌+◌, ◌*◌, ◌%◌, ◌==◌, ◌<◌, ◌≤◌, false, not, [], ◌++◌, length, map, max, take, drop, get_or, count_by, replicate, vec_capacity, IfOk, OnOk, OnErr};
ghost use Rattle.pdh_packed.specs.Words.{low_bits, bits_of_words};

use crate::altering::{fill_words, invert_words};
use crate::appending::{append_behind, append_moved, append_words};
use crate::removing::{remove_bit, take_last};
use crate::word::Word;
use std::alloc::{AllocError, Global};
use std::marker::Model;

/// A list of bits in words of 64, up to a capacity in bits. Only `open` and `reserve` take memory.
#[derive(Drop)]
pub struct Packed {
    words: Vec<u64>,
    tail: Word,
    capacity: usize,
}

impl Model for Packed {
    ghost use Rattle.std.specs.Prelude.{◌+◌, ◌*◌, ◌/◌, ◌^◌, ◌<◌, ◌≤◌, ◌++◌, length, vec_capacity};
    ghost use Rattle.pdh_bits.specs.BitOut.{BoundedBits};
    ghost use Rattle.pdh_packed.specs.Words.{bits_of_words};

    ghost Value = { BoundedBits };

    ghost view = { λ p. record { capacity = p.capacity; bits = bits_of_words p.words.items ++ p.tail } };

    ghost invariant = { λ p. (length p.tail < 64) × (p.capacity / 64 ≤ vec_capacity p.words) × (64 * length p.words.items + length p.tail ≤ p.capacity) × (p.capacity < 2 ^ 64) };
}

#[tactic(auto, using(crate::proofs::PackedLaws::packed_laws))]
impl Packed {
    /// An empty one with room for `capacity` bits.
    pub fn open(alloc: Global, capacity: usize) -> Result<Packed, AllocError>
        ensures { IfOk result (λ p. p ≡ record { capacity = capacity; bits = [] }) }
    {
        let words = Vec::with_capacity(alloc, capacity / 64)?;
        Ok(Packed {
            words,
            tail: Word::empty(),
            capacity,
        })
    }

    /// An empty one with room for 63 bits, which takes no memory.
    pub fn short(alloc: Global) -> Packed
        ensures { result ≡ record { capacity = 63; bits = [] } }
    {
        Packed {
            words: Vec::new(alloc),
            tail: Word::empty(),
            capacity: 63,
        }
    }

    /// How many bits there are.
    pub fn len(&self) -> usize
        ensures count { result ≡ length self.now.bits }
        ensures bounded { length self.now.bits ≤ self.now.capacity }
    {
        64 * self.words.len() + self.tail.len() as usize
    }

    /// How many bits there may be.
    pub fn capacity(&self) -> usize
        ensures { result ≡ self.now.capacity }
    {
        self.capacity
    }

    /// Forgets all bits.
    pub fn clear(&mut self)
        ensures { self.new ≡ record self.old { bits = [] } }
    {
        self.words.clear();
        self.tail = Word::empty();
    }

    /// Appends the bits of a word, for which there is room.
    #[inline(always)]
    pub fn append(&mut self, word: Word)
        requires room { length self.old.bits + length word ≤ self.old.capacity }
        ensures { self.new ≡ record self.old { bits = self.old.bits ++ word } }
    {
        if let Some(full) = self.tail.fill(word) {
            self.words.push_reserved(full);
        }
    }

    /// The bits from a place on, at most 64.
    #[inline(always)]
    pub fn read(&self, place: usize, count: u32) -> Word
        requires few { count ≤ 64 }
        requires within { place + count ≤ length self.now.bits }
        ensures { result ≡ take count (drop place self.now.bits) }
    {
        let index = place / 64;
        let offset = (place % 64) as u32;
        let first = self.word_at(index);
        if offset + count <= first.len() {
            return first.part(offset, count);
        }
        first.across(self.word_at(index + 1), offset, count)
    }

    /// Appends the 64 bits of a number, for which there is room.
    #[inline(always)]
    pub fn append_whole(&mut self, number: u64)
        requires { length self.old.bits + 64 ≤ self.old.capacity }
        ensures { self.new ≡ record self.old { bits = self.old.bits ++ low_bits 64 number } }
    {
        let full = self.tail.fill_whole(number);
        self.words.push_reserved(full);
    }

    /// The number that the 64 bits from a place on write.
    #[inline(always)]
    pub fn read_whole(&self, place: usize) -> u64
        requires { place + 64 ≤ length self.now.bits }
        ensures { low_bits 64 result ≡ take 64 (drop place self.now.bits) }
    {
        let index = place / 64;
        let offset = place % 64;
        if offset == 0 {
            return self.words[index];
        }
        if index + 1 >= self.words.len() {
            return self.read_last(place);
        }
        (self.words[index] << offset).wrapping_add(self.words[index + 1] >> (64 - offset))
    }

    // The same where they end past the whole words.
    #[inline(never)]
    fn read_last(&self, place: usize) -> u64
        requires { place + 64 ≤ length self.now.bits }
        ensures { low_bits 64 result ≡ take 64 (drop place self.now.bits) }
    {
        self.read(place, 64).number()
    }

    /// A number of 64 bits that begin with the bits from a place on, so many.
    #[inline(always)]
    pub fn read_left(&self, place: usize, count: u32) -> u64
        requires few { count ≤ 64 }
        requires within { place + count ≤ length self.now.bits }
        ensures { take count (low_bits 64 result) ≡ take count (drop place self.now.bits) }
    {
        if count == 0 {
            return 0;
        }
        if count == 64 {
            return self.read_whole(place);
        }
        self.read(place, count).number() << (64 - count)
    }

    /// The 64 bits from a place on, with zeros where no bits are.
    #[inline(always)]
    pub fn read_filled(&self, place: usize) -> u64
        ensures { low_bits 64 result ≡ take 64 (drop place self.now.bits ++ replicate 64 false) }
    {
        if place / 64 + 1 < self.words.len() {
            return self.read_whole(place);
        }
        self.read_end(place)
    }

    // The same where they may end past the whole words.
    #[inline(never)]
    fn read_end(&self, place: usize) -> u64
        ensures { low_bits 64 result ≡ take 64 (drop place self.now.bits ++ replicate 64 false) }
    {
        let from = place.min(self.len());
        let count = (self.len() - from).min(64);
        self.read(from, count as u32).placed(0).number()
    }

    // The bits from a word's first on, up to 64: a whole word, what is left after the whole words, or none.
    fn word_at(&self, index: usize) -> Word
        ensures { result ≡ take 64 (drop (64 * index) self.now.bits) }
    {
        let count = self.words.len();
        if index < count {
            return Word::of(self.words[index], 64);
        }
        if index == count {
            return self.tail;
        }
        Word::empty()
    }

    /// Appends bits of another list, so many from a place on, for which there is room.
    #[inline(always)]
    pub fn append_from(&mut self, other: &Packed, place: usize, count: usize)
        requires within { place + count ≤ length other.now.bits }
        requires room { length self.old.bits + count ≤ self.old.capacity }
        ensures { self.new ≡ record self.old { bits = self.old.bits ++ take count (drop place other.now.bits) } }
    {
        if count < 64 {
            self.append(other.read(place, count as u32));
            return;
        }
        self.append_long(other, place, count);
    }

    // The same word by word.
    fn append_long(&mut self, other: &Packed, place: usize, count: usize)
        requires many { 64 ≤ count }
        requires within { place + count ≤ length other.now.bits }
        requires room { length self.old.bits + count ≤ self.old.capacity }
        ensures { self.new ≡ record self.old { bits = self.old.bits ++ take count (drop place other.now.bits) } }
    {
        // a place fits, since a length does
        let _fits = other.len();
        let first = self.end_word(other, place);
        let mut done = first + self.append_aligned(other, place + first, count - first);
        if count - done >= 64 {
            self.append_whole(other.read_whole(place + done));
            done += 64;
        }
        self.append(other.read(place + done, (count - done) as u32));
    }

    // Appends from a place of another list on the bits that the last word wants to be whole, and answers how many.
    #[inline(always)]
    fn end_word(&mut self, other: &Packed, place: usize) -> usize
        requires within { place + 64 ≤ length other.now.bits }
        requires room { length self.old.bits + 64 ≤ self.old.capacity }
        ensures bits { self.new ≡ record self.old { bits = self.old.bits ++ take result (drop place other.now.bits) } }
        ensures whole { length self.new.bits % 64 ≡ 0 }
        ensures few { result < 64 }
    {
        let held = self.tail.len();
        if held == 0 {
            return 0;
        }
        self.words
            .push_reserved(self.tail.filled(other.read_whole(place)));
        self.tail = Word::empty();
        (64 - held) as usize
    }

    // Appends behind whole words as many words of 64 bits of another list from a place on as its whole words
    // have of so many bits, and answers how many bits.
    #[inline(always)]
    fn append_aligned(&mut self, other: &Packed, place: usize, count: usize) -> usize
        requires whole { length self.old.bits % 64 ≡ 0 }
        requires within { place + count ≤ length other.now.bits }
        requires room { length self.old.bits + count ≤ self.old.capacity }
        ensures bits { self.new ≡ record self.old { bits = self.old.bits ++ take result (drop place other.now.bits) } }
        ensures most { (result ≤ count) × (count < result + 128) }
    {
        let index = place / 64;
        let offset = place % 64;
        // a word more is read where each is made of two
        let more = offset.min(1);
        let whole = (count / 64).min(other.words.len().saturating_sub(index + more));
        if whole == 0 {
            return 0;
        }
        let run = &other.words[index..index + whole + more];
        if offset == 0 {
            append_words(&mut self.words, run);
            return 64 * whole;
        }
        append_moved(&mut self.words, run, offset);
        64 * whole
    }

    /// Appends all bits of another list, for which there is room.
    pub fn append_all(&mut self, other: &Packed)
        requires { length self.old.bits + length other.now.bits ≤ self.old.capacity }
        ensures { self.new ≡ record self.old { bits = self.old.bits ++ other.now.bits } }
    {
        if self.tail.len() == 0 {
            append_words(&mut self.words, &other.words);
            self.tail = other.tail;
            return;
        }
        append_behind(&mut self.words, &mut self.tail, &other.words);
        self.append(other.tail);
    }

    /// How many of the bits are 1, of so many from a place on.
    pub fn ones(&self, place: usize, count: usize) -> usize
        requires { place + count ≤ length self.now.bits }
        ensures { result ≡ count_by (λ bit. bit) (take count (drop place self.now.bits)) }
    {
        // a place fits, since a length does
        let _fits = self.len();
        let mut ones = 0;
        let mut done = 0;
        while count - done >= 64 {
            ones += self.read_whole(place + done).count_ones() as usize;
            done += 64;
        }
        ones + self.read(place + done, (count - done) as u32).ones() as usize
    }

    /// Whether an odd number of the bits is 1, of so many from a place on.
    pub fn is_odd(&self, place: usize, count: usize) -> bool
        requires { place + count ≤ length self.now.bits }
        ensures { result ≡ (count_by (λ bit. bit) (take count (drop place self.now.bits)) % 2 == 1) }
    {
        self.ones(place, count) % 2 == 1
    }

    /// The bit at a place.
    pub fn get(&self, place: usize) -> bool
        requires { place < length self.now.bits }
        ensures { result ≡ get_or self.now.bits place false }
    {
        self.word_at(place / 64).get((place % 64) as u32)
    }

    /// Makes room for so many bits more, unless there is as much; or the refusal of memory for it.
    pub fn reserve(&mut self, more: usize) -> Result<(), AllocError>
        ensures ok { OnOk result (self.new ≡ record self.old { capacity = max self.old.capacity (length self.old.bits + more) }) }
        ensures err { OnErr result (self.new ≡ self.old) }
    {
        let Some(needed) = self.len().checked_add(more) else {
            return Err(AllocError);
        };
        if needed > self.capacity {
            self.words.reserve(needed / 64 - self.words.len())?;
            self.capacity = needed;
        }
        Ok(())
    }

    /// Removes the bit at a place.
    pub fn remove(&mut self, place: usize)
        requires { place < length self.old.bits }
        ensures { self.new ≡ record self.old { bits = take place self.old.bits ++ drop (place + 1) self.old.bits } }
    {
        let at = (place % 64) as u32;
        let last = take_last(&mut self.words, self.tail);
        if place / 64 == self.words.len() {
            self.tail = last.without(at);
            return;
        }
        remove_bit(&mut self.words, place, last.get(0));
        self.tail = last.after(1);
    }

    /// Inverts all bits.
    pub fn invert(&mut self)
        ensures { self.new ≡ record self.old { bits = map not self.old.bits } }
    {
        invert_words(&mut self.words);
        self.tail = self.tail.inverted();
    }

    /// Sets all bits to one value.
    pub fn fill(&mut self, bit: bool)
        ensures { self.new ≡ record self.old { bits = map (λ old. bit) self.old.bits } }
    {
        fill_words(&mut self.words, bit);
        self.tail = Word::copies(bit, self.tail.len());
    }

    /// Takes over the bits of another list, for which there is room, in place of its own.
    pub fn copy_from(&mut self, other: &Packed)
        requires { length other.now.bits ≤ self.old.capacity }
        ensures { self.new ≡ record self.old { bits = other.now.bits } }
    {
        self.words.clear();
        append_words(&mut self.words, &other.words);
        self.tail = other.tail;
    }

    /// Appends bits of another list inverted, so many from a place on, for which there is room.
    pub fn append_inverted(&mut self, other: &Packed, place: usize, count: usize)
        requires within { place + count ≤ length other.now.bits }
        requires room { length self.old.bits + count ≤ self.old.capacity }
        ensures { self.new ≡ record self.old { bits = self.old.bits ++ map not (take count (drop place other.now.bits)) } }
    {
        // a place fits, since a length does
        let _fits = other.len();
        let mut done = 0;
        while count - done >= 64 {
            self.append_whole(u64::MAX - other.read_whole(place + done));
            done += 64;
        }
        self.append(other.read(place + done, (count - done) as u32).inverted());
    }
}
