//! Rings of the last bits of a stream, in words of 64.

ghost use Rattle.std.specs.Prelude.{◌≡◌, ◌+◌, ◌-◌, ◌*◌, ◌%◌, ◌<◌, ◌≤◌, [], ◌∷◌, ◌++◌, false, length, take, drop, get_or, IfOk};
ghost use Rattle.circular_buffer.specs.Buffer.{buffer, keep_last};
ghost use Rattle.pdh_packed.specs.Words.{low_bits, bits_of_words};

use crate::packed::Packed;
use crate::word::Word;
use circular_buffer::HeapCircularBuffer;
use std::alloc::{AllocError, Global};
use std::marker::Model;

/// The last bits of a stream in words of 64, up to a capacity in bits. Only `open` takes memory.
#[derive(Drop)]
pub struct BitRing {
    words: HeapCircularBuffer<u64>,
    tail: Word,
    // how many of the oldest word's bits are no longer held
    dropped: u32,
}

impl Model for BitRing {
    ghost use Rattle.std.specs.Prelude.{◌+◌, ◌*◌, ◌<◌, ◌≤◌, ◌++◌, length, drop};
    ghost use Rattle.pdh_bits.specs.BitOut.{BoundedBits};
    ghost use Rattle.pdh_packed.specs.Words.{bits_of_words};

    // the bits from the oldest to the newest
    ghost Value = { BoundedBits };

    ghost view = { λ r. record { capacity = 64 * r.words.capacity; bits = drop r.dropped (bits_of_words r.words.items ++ r.tail) } };

    ghost invariant = { λ r. (1 ≤ r.words.capacity) × (r.words.capacity ≤ 1024) × (length r.tail < 64) × (r.dropped < 64) × (r.dropped ≤ 64 * length r.words.items) × (64 * length r.words.items + length r.tail ≤ 64 * r.words.capacity + r.dropped) };
}

// Adds a word, for which there is room.
fn append_whole(words: &mut HeapCircularBuffer<u64>, word: u64)
    requires { length words.old.items < words.old.capacity }
    ensures { words.new ≡ buffer (words.old.items ++ word ∷ []) words.old.capacity }
{
    words.push_back(word);
}

// The same at the end of bits that come one by one.
#[inline(never)]
fn end_word(words: &mut HeapCircularBuffer<u64>, word: u64)
    requires { length words.old.items < words.old.capacity }
    ensures { words.new ≡ buffer (words.old.items ++ word ∷ []) words.old.capacity }
{
    append_whole(words, word);
}

// A word of those that there are.
fn whole_at(words: &HeapCircularBuffer<u64>, index: usize) -> u64
    requires { index < length words.now.items }
    ensures { result ≡ get_or words.now.items index 0 }
{
    words.get(index).copied().unwrap_or(0)
}

// The bits from a word's first on, up to 64: a whole word, the tail after the whole words, or none.
fn word_at(words: &HeapCircularBuffer<u64>, tail: &Word, index: usize) -> Word
    requires { length tail.now < 64 }
    ensures { result ≡ take 64 (drop (64 * index) (bits_of_words words.now.items ++ tail.now)) }
{
    if let Some(word) = words.get(index) {
        return Word::of(*word, 64);
    }
    if index == words.len() {
        return *tail;
    }
    Word::empty()
}

#[tactic(auto, using(crate::proofs::PackedLaws::packed_laws))]
impl BitRing {
    /// An empty one that keeps the last `cap` bits.
    pub fn open(alloc: Global, cap: u32) -> Result<BitRing, AllocError>
        requires least { 64 ≤ cap }
        requires most { cap ≤ 65536 }
        requires whole_words { cap % 64 ≡ 0 }
        ensures { IfOk result (λ r. r ≡ record { capacity = cap; bits = [] }) }
    {
        let words = HeapCircularBuffer::with_capacity(alloc, (cap / 64) as usize)?;
        Ok(BitRing {
            words,
            tail: Word::empty(),
            dropped: 0,
        })
    }

    /// How many bits are held.
    pub fn held(&self) -> u32
        ensures count { result ≡ length self.now.bits }
        ensures bounded { length self.now.bits ≤ self.now.capacity }
    {
        64 * self.words.len() as u32 + self.tail.len() - self.dropped
    }

    /// How many bits are held at most.
    pub fn capacity(&self) -> u32
        ensures capacity { result ≡ self.now.capacity }
        ensures bounded { (64 ≤ result) × (result ≤ 65536) }
    {
        64 * self.words.capacity() as u32
    }

    /// Appends a bit, and keeps the last bits, as many as the capacity says.
    pub fn push(&mut self, bit: bool)
        ensures { self.new ≡ record self.old { bits = keep_last self.old.capacity (self.old.bits ++ bit ∷ []) } }
    {
        if self.held() == self.capacity() {
            self.drop_oldest(1);
            self.append_bit(bit);
            return;
        }
        self.append_bit(bit);
    }

    /// Appends the bits of a word, and keeps the last bits, as many as the capacity says.
    pub fn push_word(&mut self, word: Word)
        ensures { self.new ≡ record self.old { bits = keep_last self.old.capacity (self.old.bits ++ word) } }
    {
        let cap = self.capacity();
        let over = (self.held() + word.len()).saturating_sub(cap);
        self.drop_oldest(over);
        self.append(word);
    }

    /// Drops the oldest bits, so many.
    pub fn drop_oldest(&mut self, count: u32)
        requires { count ≤ length self.old.bits }
        ensures { self.new ≡ record self.old { bits = drop count self.old.bits } }
    {
        let words = self.words.len();
        let past = self.dropped + count;
        if past >= 64 * words as u32 {
            self.tail = self.tail.after(past - 64 * words as u32);
            self.words.clear();
            self.dropped = 0;
            return;
        }
        self.words.truncate_front(words - (past / 64) as usize);
        self.dropped = past % 64;
    }

    /// The bit that came so many bits before the newest.
    pub fn get(&self, back: u32) -> bool
        requires { back < length self.now.bits }
        ensures { result ≡ get_or self.now.bits (length self.now.bits - 1 - back) false }
    {
        self.bit(self.held() - 1 - back)
    }

    /// The bit at a place. Place 0 is the oldest bit's.
    pub fn bit(&self, place: u32) -> bool
        requires { place < length self.now.bits }
        ensures { result ≡ get_or self.now.bits place false }
    {
        let from = self.dropped + place;
        word_at(&self.words, &self.tail, (from / 64) as usize).get(from % 64)
    }

    /// The bits from a place on, at most 64. Place 0 is the oldest bit's.
    pub fn read(&self, place: u32, count: u32) -> Word
        requires few { count ≤ 64 }
        requires within { place + count ≤ length self.now.bits }
        ensures { result ≡ take count (drop place self.now.bits) }
    {
        let from = self.dropped + place;
        let index = (from / 64) as usize;
        let offset = from % 64;
        let first = word_at(&self.words, &self.tail, index);
        if offset + count <= first.len() {
            return first.after(offset).first(count);
        }
        first.across(word_at(&self.words, &self.tail, index + 1), offset, count)
    }

    // The number that the 64 bits from a place on write.
    fn read_whole(&self, place: u32) -> u64
        requires { place + 64 ≤ length self.now.bits }
        ensures { low_bits 64 result ≡ take 64 (drop place self.now.bits) }
    {
        let from = self.dropped + place;
        let index = (from / 64) as usize;
        let offset = from % 64;
        if offset == 0 {
            return whole_at(&self.words, index);
        }
        if index + 1 >= self.words.len() {
            return self.read(place, 64).number();
        }
        (whole_at(&self.words, index) << offset).wrapping_add(
            whole_at(&self.words, index + 1) >> (64 - offset),
        )
    }

    /// Forgets all bits.
    pub fn clear(&mut self)
        ensures { self.new ≡ record self.old { bits = [] } }
    {
        self.words.clear();
        self.tail = Word::empty();
        self.dropped = 0;
    }

    /// Appends a bit, for which there is room.
    pub fn append_bit(&mut self, bit: bool)
        requires { length self.old.bits < self.old.capacity }
        ensures { self.new ≡ record self.old { bits = self.old.bits ++ bit ∷ [] } }
    {
        self.tail.push(bit);
        if self.tail.len() == 64 {
            end_word(&mut self.words, self.tail.number());
            self.tail = Word::empty();
        }
    }

    /// Appends the bits of a word, for which there is room.
    pub fn append(&mut self, word: Word)
        requires room { length self.old.bits + length word ≤ self.old.capacity }
        ensures { self.new ≡ record self.old { bits = self.old.bits ++ word } }
    {
        if let Some(full) = self.tail.fill(word) {
            append_whole(&mut self.words, full);
        }
    }

    // Appends the 64 bits of a number, for which there is room.
    fn append_number(&mut self, number: u64)
        requires { length self.old.bits + 64 ≤ self.old.capacity }
        ensures { self.new ≡ record self.old { bits = self.old.bits ++ low_bits 64 number } }
    {
        let full = self.tail.fill_whole(number);
        append_whole(&mut self.words, full);
    }

    /// Appends bits of a list, so many from a place on, for which there is room.
    pub fn append_from(&mut self, list: &Packed, place: usize, count: usize)
        requires within { place + count ≤ length list.now.bits }
        requires room { length self.old.bits + count ≤ self.old.capacity }
        ensures { self.new ≡ record self.old { bits = self.old.bits ++ take count (drop place list.now.bits) } }
    {
        // a place fits, since a length does
        let _fits = list.len();
        let mut done = 0;
        while count - done >= 64 {
            self.append_number(list.read_whole(place + done));
            done += 64;
        }
        self.append(list.read(place + done, (count - done) as u32));
    }

    /// Appends bits that are held to a list, so many from a place on, for which it has room. Place 0
    /// is the oldest bit's.
    pub fn append_to(&self, place: u32, count: u32, list: &mut Packed)
        requires within { place + count ≤ length self.now.bits }
        requires room { length list.old.bits + count ≤ list.old.capacity }
        ensures { list.new ≡ record list.old { bits = list.old.bits ++ take count (drop place self.now.bits) } }
    {
        // a place fits, since a length does
        let _fits = self.held();
        let mut done = 0;
        while count - done >= 64 {
            list.append_whole(self.read_whole(place + done));
            done += 64;
        }
        list.append(self.read(place + done, count - done));
    }
}
