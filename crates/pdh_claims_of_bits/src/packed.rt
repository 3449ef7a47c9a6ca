//! Claims on `pdh_packed`.

ghost use Rattle.std.specs.Prelude.{◌≡◌, ◌+◌, ◌<◌, ◌≤◌, false, true, [], ◌∷◌, ◌++◌, length, replicate, OnOk};
ghost use Rattle.pdh_packed.specs.Words.{low_bits};

use pdh_packed::{BitArray, BitRing, Packed, Word};
use std::alloc::AllocError;

/// What is appended from the second place on begins with the second bit.
pub fn appends_some_from_the_beginning(list: &mut Packed, other: &Packed) -> usize
    requires bits { other.now.bits ≡ false ∷ true ∷ [] }
    requires room { length list.old.bits < list.old.capacity }
    ensures { list.new.bits ≡ list.old.bits ++ true ∷ [] }
{
    list.append_some(other, 1)
}

/// A bit that fills no word is appended.
pub fn appends_whole_words_only(list: &mut Packed, other: &Packed)
    requires bits { other.now.bits ≡ true ∷ [] }
    requires room { length list.old.bits < list.old.capacity }
    ensures { list.new.bits ≡ list.old.bits ++ true ∷ [] }
{
    list.append_all(other);
}

/// Two ones are not odd.
pub fn even_number_of_ones_is_odd(list: &Packed) -> bool
    requires { list.now.bits ≡ true ∷ true ∷ [] }
    ensures { result ≡ false }
{
    list.is_odd(0, 2)
}

/// A bit beside those that are written over stays.
pub fn forgets_the_rest_of_a_word(array: &mut BitArray, word: Word)
    requires bits { array.old ≡ true ∷ true ∷ [] }
    requires written { word ≡ false ∷ [] }
    ensures { array.new ≡ false ∷ true ∷ [] }
{
    array.write(0, word);
}

/// The second bit is at place 1.
pub fn gets_the_bit_before(list: &Packed) -> bool
    requires { list.now.bits ≡ false ∷ true ∷ [] }
    ensures { result ≡ true }
{
    list.get(1)
}

/// A word of zeros inverted is a word of ones.
pub fn inverted_bits_one_place_late(list: &mut Packed)
    requires { list.old.bits ≡ replicate 64 false }
    ensures { list.new.bits ≡ replicate 64 true }
{
    list.invert();
}

/// Where the first of 65 bits is removed, the last of them stays.
pub fn inverts_the_bit_behind_the_words(list: &mut Packed)
    requires { list.old.bits ≡ replicate 64 false ++ true ∷ [] }
    ensures { list.new.bits ≡ replicate 63 false ++ true ∷ [] }
{
    list.remove(0);
}

/// The first bit is that bit.
pub fn reads_on_past_the_first_bits(word: &Word) -> Word
    requires { word.now ≡ false ∷ true ∷ [] }
    ensures { result ≡ false ∷ [] }
{
    word.first(1)
}

/// What is read from the last bit on begins with it.
pub fn reads_zeros_before_the_last_bits(list: &Packed) -> u64
    requires { list.now.bits ≡ true ∷ [] }
    ensures { low_bits 64 result ≡ true ∷ replicate 63 false }
{
    list.read_filled(0)
}

/// After room was made for a bit more, a full list has room for one.
pub fn reserves_one_bit_too_few(list: &mut Packed) -> Result<(), AllocError>
    requires { length list.old.bits ≡ list.old.capacity }
    ensures { OnOk result (length list.new.bits < list.new.capacity) }
{
    list.reserve(1)
}

/// A ring that bits fill keeps all its bits.
pub fn ring_forgets_one_bit_too_many(ring: &mut BitRing, word: Word)
    requires { length ring.old.bits + length word ≡ ring.old.capacity }
    ensures { ring.new.bits ≡ ring.old.bits ++ word }
{
    ring.push_word(word);
}

/// Of a bit the last of two bits that are shifted in stays.
pub fn shifts_in_too_many_bits(word: &Word, next: Word) -> Word
    requires one { word.now ≡ false ∷ [] }
    requires two { next ≡ false ∷ true ∷ [] }
    ensures { result ≡ true ∷ [] }
{
    word.shift_in(next)
}
