//! Arrays of bits in words of 64, read and written at any place.

ghost use Rattle.std.specs.Prelude.{◌≡◌, ◌+◌, ◌*◌, ◌%◌, ◌^◌, ◌<◌, ◌≤◌, false, not, length, take, drop, get_or, replicate, IfOk};
ghost use Rattle.std.specs.List.{prefix_len};
ghost use Rattle.pdh_packed.specs.Words.{low_bits, bits_of_words};
ghost use Rattle.pdh_packed.specs.Places.{masked, overwritten};

use crate::word::Word;
use std::alloc::{AllocError, Global};
use std::marker::Model;

/// A list of bits whose number doesn't change, in words of 64. Only `open` takes memory.
#[derive(Drop)]
pub struct BitArray {
    words: Vec<u64>,
    len: usize,
}

impl Model for BitArray {
    ghost use Rattle.std.specs.Prelude.{◌*◌, ◌<◌, ◌^◌, Bool, List, length, take};
    ghost use Rattle.pdh_packed.specs.Words.{bits_of_words};

    ghost Value = { List Bool };

    ghost view = { λ a. take a.len (bits_of_words a.words.items) };

    ghost invariant = { λ a. (a.len < 64 * length a.words.items) × (a.len < 2 ^ 64) };
}

// The 64 bits of a word, or none past the last word.
fn word_at(words: &[u64], index: usize) -> Word
    ensures { result ≡ take 64 (drop (64 * index) (bits_of_words words.now)) }
{
    if index < words.len() {
        return Word::of(words[index], 64);
    }
    Word::empty()
}

// Writes over bits of one word, from a place on: those of another word at the same places where the
// mask has a 1, and zeros where it hasn't.
#[inline(always)]
fn overwrite_word(words: &mut [u64], place: usize, other: u64, mask: Word)
    requires among { place < 64 * length words.old }
    requires within { place % 64 + length mask ≤ 64 }
    ensures { bits_of_words words.new ≡ overwritten place (masked (place % 64) mask (low_bits 64 other)) (bits_of_words words.old) }
{
    if mask.len() == 64 {
        words[place / 64] = Word::of(other, 64).and(mask).number();
        return;
    }
    overwrite_part(words, place, other, mask);
}

// The same of a part of a word.
#[inline(never)]
fn overwrite_part(words: &mut [u64], place: usize, other: u64, mask: Word)
    requires among { place < 64 * length words.old }
    requires within { place % 64 + length mask ≤ 64 }
    ensures { bits_of_words words.new ≡ overwritten place (masked (place % 64) mask (low_bits 64 other)) (bits_of_words words.old) }
{
    let index = place / 64;
    let offset = (place % 64) as u32;
    let part = Word::copies(true, mask.len()).placed(offset);
    let kept = Word::of(words[index], 64).and(part.inverted());
    let written = Word::of(other, 64).and(mask.placed(offset));
    words[index] = kept.or(written).number();
}

// How many zeros stand one after another in the bits of words from a place on, so many at most.
fn zeros_of_words(words: &[u64], place: usize, most: usize) -> usize
    requires fits { place + most < 2 ^ 64 }
    requires within { place + most ≤ 64 * length words.now }
    ensures { result ≡ prefix_len not (take most (drop place (bits_of_words words.now))) }
{
    let mut zeros = 0;
    while zeros < most {
        let from = place + zeros;
        let rest = Word::of(words[from / 64], 64).after((from % 64) as u32);
        let found = (rest.leading_zeros() as usize).min(most - zeros);
        zeros += found;
        if found < rest.len() as usize {
            return zeros;
        }
    }
    most
}

impl BitArray {
    /// So many zeros.
    pub fn open(alloc: Global, len: usize) -> Result<BitArray, AllocError>
        ensures { IfOk result (λ a. a ≡ replicate len false) }
    {
        let words = vec![in alloc; 0u64; len / 64 + 1]?;
        Ok(BitArray { words, len })
    }

    /// How many bits there are.
    pub fn len(&self) -> usize
        ensures { result ≡ length self.now }
    {
        self.len
    }

    /// The bit at a place.
    pub fn get(&self, place: usize) -> bool
        requires { place < length self.now }
        ensures { result ≡ get_or self.now place false }
    {
        Word::of(self.words[place / 64], 64).get((place % 64) as u32)
    }

    /// The bits from a place on, at most 64.
    pub fn read(&self, place: usize, count: u32) -> Word
        requires few { count ≤ 64 }
        requires within { place + count ≤ length self.now }
        ensures { result ≡ take count (drop place self.now) }
    {
        let index = place / 64;
        let next = word_at(&self.words, index + 1);
        word_at(&self.words, index).across(next, (place % 64) as u32, count)
    }

    /// Writes a word over the bits from a place on.
    #[inline(always)]
    pub fn write(&mut self, place: usize, word: Word)
        requires { place + length word ≤ length self.old }
        ensures { self.new ≡ overwritten place word self.old }
    {
        let room = 64 - (place % 64) as u32;
        if word.len() <= room {
            overwrite_word(&mut self.words, place, u64::MAX, word);
            return;
        }
        overwrite_word(&mut self.words, place, u64::MAX, word.first(room));
        overwrite_word(
            &mut self.words,
            place + room as usize,
            u64::MAX,
            word.after(room),
        );
    }

    /// Writes over the bits from a place on: those of another array at the same places where the mask
    /// has a 1, and zeros where it hasn't.
    #[inline(always)]
    pub fn write_masked(&mut self, place: usize, other: &BitArray, mask: Word)
        requires among { place + length mask ≤ length other.now }
        requires within { place + length mask ≤ length self.old }
        ensures { self.new ≡ overwritten place (masked place mask other.now) self.old }
    {
        let index = place / 64;
        let room = 64 - (place % 64) as u32;
        if mask.len() <= room {
            overwrite_word(&mut self.words, place, other.words[index], mask);
            return;
        }
        overwrite_word(&mut self.words, place, other.words[index], mask.first(room));
        overwrite_word(
            &mut self.words,
            place + room as usize,
            other.words[index + 1],
            mask.after(room),
        );
    }

    /// Makes all bits the same.
    pub fn fill(&mut self, bit: bool)
        ensures { self.new ≡ replicate (length self.old) bit }
    {
        self.words.fill(Word::copies(bit, 64).number());
    }

    /// How many zeros stand one after another from a place on, so many at most.
    pub fn zeros(&self, place: usize, most: usize) -> usize
        requires { place + most ≤ length self.now }
        ensures { result ≡ prefix_len not (take most (drop place self.now)) }
    {
        zeros_of_words(&self.words, place, most)
    }
}
