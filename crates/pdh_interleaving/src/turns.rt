//! Putting lists in turn and dealing them out, at most 64 bits of each at a time.

ghost use Rattle.std.specs.Prelude.{◌≡◌, ◌+◌, ◌*◌, ◌≤◌, ◌⊎◌, ◌++◌, length, map, take, drop, slice_index, All};
ghost use Rattle.std.specs.List.{flat_map};
ghost use Rattle.pdh_bits.specs.Bits.{bits_of_byte};
ghost use Rattle.pdh_packed.specs.Words.{low_bits, bits_of_words};
ghost use Rattle.pdh_interleaving.specs.Interleaving.{interleaved, appended_to_each, dealt};

use crate::kernels::{columns4, columns7, interleave7, rows_in_bytes, rows4};
use pdh_packed::{Packed, Word};

/// Appends the bits of four or of seven tributaries in turn, so many of each from a place on.
pub fn interleave(tributaries: &[Packed], place: usize, each: usize, line: &mut Packed)
    requires tributaries { (length tributaries.now ≡ 4) ⊎ (length tributaries.now ≡ 7) }
    requires within { All (λ t. place + each ≤ length t.bits) tributaries.now }
    requires room { length line.old.bits + each * length tributaries.now ≤ line.old.capacity }
    ensures { line.new ≡ record line.old { bits = line.old.bits ++ interleaved (map (λ t. drop place t.bits) tributaries.now) each } }
{
    // a place fits, since a length does
    let _fits = tributaries[0].len();
    let mut done = 0;
    while done < each {
        let count = (each - done).min(64);
        append_next(tributaries, place + done, count as u32, line);
        done += count;
    }
}

// The same of at most 64 bits of each.
fn append_next(tributaries: &[Packed], place: usize, count: u32, line: &mut Packed)
    requires tributaries { (length tributaries.now ≡ 4) ⊎ (length tributaries.now ≡ 7) }
    requires few { count ≤ 64 }
    requires within { All (λ t. place + count ≤ length t.bits) tributaries.now }
    requires room { length line.old.bits + count * length tributaries.now ≤ line.old.capacity }
    ensures { line.new ≡ record line.old { bits = line.old.bits ++ interleaved (map (λ t. drop place t.bits) tributaries.now) count } }
{
    if tributaries.len() == 4 {
        let words = [
            tributaries[0].read_left(place, count),
            tributaries[1].read_left(place, count),
            tributaries[2].read_left(place, count),
            tributaries[3].read_left(place, count),
        ];
        append_four(words, count, line);
    } else {
        let words = [
            tributaries[0].read_left(place, count),
            tributaries[1].read_left(place, count),
            tributaries[2].read_left(place, count),
            tributaries[3].read_left(place, count),
            tributaries[4].read_left(place, count),
            tributaries[5].read_left(place, count),
            tributaries[6].read_left(place, count),
        ];
        append_rows(&words, count, line);
    }
}

// Appends the first bits of seven numbers of 64 bits in turn, so many of each.
fn append_rows(words: &[u64], count: u32, line: &mut Packed)
    requires seven { length words.now ≡ 7 }
    requires few { count ≤ 64 }
    requires room { length line.old.bits + count * length words.now ≤ line.old.capacity }
    ensures { line.new ≡ record line.old { bits = line.old.bits ++ interleaved (map (low_bits 64) words.now) count } }
{
    let mut done = 0;
    while done < count {
        let rows = (count - done).min(8);
        line.append(rows_of(words, done).first(rows * words.len() as u32));
        done += 8;
    }
}

// Appends the first bits of four numbers of 64 bits in turn, so many of each.
fn append_four(words: [u64; 4], count: u32, line: &mut Packed)
    requires few { count ≤ 64 }
    requires room { length line.old.bits + count * 4 ≤ line.old.capacity }
    ensures { line.new ≡ record line.old { bits = line.old.bits ++ interleaved (map (low_bits 64) words) count } }
{
    let rows = rows4(words[0], words[1], words[2], words[3]);
    let mut done = 0;
    for row in rows {
        let more = (count - done).min(16);
        append_front(row, 4 * more, line);
        done += more;
    }
}

// The bits of seven numbers of 64 bits in turn, eight of each from a place on.
fn rows_of(words: &[u64], place: u32) -> Word
    requires seven { length words.now ≡ 7 }
    requires within { place ≤ 56 }
    ensures { result ≡ interleaved (map (λ word. drop place (low_bits 64 word)) words.now) 8 }
{
    let seven = interleave7(
        byte_at(words[0], place),
        byte_at(words[1], place),
        byte_at(words[2], place),
        byte_at(words[3], place),
        byte_at(words[4], place),
        byte_at(words[5], place),
        byte_at(words[6], place),
    );
    Word::of(seven, 56)
}

// The eight bits of a number from a place on.
fn byte_at(word: u64, place: u32) -> u8
    requires { place ≤ 56 }
    ensures { bits_of_byte result ≡ take 8 (drop place (low_bits 64 word)) }
{
    ((word >> (56 - place)) % 256) as u8
}

/// Deals the bits of four words out to four tributaries in turn, so many to each.
#[inline(always)]
pub fn deal_four(words: [u64; 4], count: u32, tributaries: &mut [Packed])
    requires four { length tributaries.old ≡ 4 }
    requires few { count ≤ 64 }
    requires room { All (λ t. length t.bits + count ≤ t.capacity) tributaries.old }
    ensures { tributaries.new ≡ dealt count (bits_of_words words) tributaries.old }
{
    let columns = columns4(words[0], words[1], words[2], words[3]);
    append_each(&columns, count, tributaries);
}

/// Deals the first 56 bits of each of eight words out to seven tributaries in turn, so many to each.
#[inline(always)]
pub fn deal_seven(words: [u64; 8], count: u32, tributaries: &mut [Packed])
    requires seven { length tributaries.old ≡ 7 }
    requires few { count ≤ 64 }
    requires room { All (λ t. length t.bits + count ≤ t.capacity) tributaries.old }
    ensures { tributaries.new ≡ dealt count (flat_map (λ word. take 56 (low_bits 64 word)) words) tributaries.old }
{
    let columns = columns7(
        rows_in_bytes(words[0]),
        rows_in_bytes(words[1]),
        rows_in_bytes(words[2]),
        rows_in_bytes(words[3]),
        rows_in_bytes(words[4]),
        rows_in_bytes(words[5]),
        rows_in_bytes(words[6]),
        rows_in_bytes(words[7]),
    );
    append_each(&columns, count, tributaries);
}

// Appends to a list the first bits of a number, so many.
#[inline(always)]
fn append_front(number: u64, count: u32, list: &mut Packed)
    requires few { count ≤ 64 }
    requires room { length list.old.bits + count ≤ list.old.capacity }
    ensures { list.new ≡ record list.old { bits = list.old.bits ++ take count (low_bits 64 number) } }
{
    if count == 64 {
        list.append_whole(number);
        return;
    }
    list.append(Word::of(number, 64).first(count));
}

// The same of each number to one of the lists.
#[inline(always)]
fn append_each(words: &[u64], count: u32, lists: &mut [Packed])
    requires few { count ≤ 64 }
    requires each { length words.now ≡ length lists.old }
    requires room { All (λ list. length list.bits + count ≤ list.capacity) lists.old }
    ensures { lists.new ≡ appended_to_each (λ j. take count (low_bits 64 (slice_index words.now j))) 0 lists.old }
{
    for index in 0..lists.len() {
        append_front(words[index], count, &mut lists[index]);
    }
}
