//! Packed lists, words, rings and arrays, across words.

ghost use Rattle.std.specs.Prelude.{◌≡◌, length};

use pdh_packed::{BitArray, BitRing, Packed, Word};
use std::alloc::Global;
use std::test::Fail;

/// Nine bytes.
const NINE_BYTES: [u8; 9] = [0xF4, 0x10, 0x00, 0x00, 0x00, 0x00, 0x00, 0x0F, 0xA5];

#[test]
fn bits_of_bytes_at_any_place(rt: HostRuntime) -> Result<(), Fail> {
    let list = Packed::of_bytes(rt.alloc(), &NINE_BYTES)?;
    let mut copy = Packed::open(rt.alloc(), 68)?;
    assert!(rt; list.len() == 72);
    copy.append_from(&list, 4, 68);
    assert!(rt; copy.len() == 68);
    let mut bytes = [0xEE; 3];
    let numbers = [
        list.read(3, 9).number(),
        list.read(60, 12).number(),
        copy.read(4, 64).number(),
    ];
    let odd = list.is_odd(0, 61);
    copy.clear();
    let counts = [
        list.ones(0, 72),
        list.write_bytes(60, &mut bytes),
        copy.len(),
    ];
    assert!(rt; numbers == [0b101000001, 0xFA5, 0x1000_0000_0000_0FA5]);
    assert!(rt; (counts, odd, bytes) == ([14, 1, 0], true, [0xFA, 0xEE, 0xEE]));
    Ok(())
}

#[test]
fn the_last_bits_are_kept(rt: HostRuntime) -> Result<(), Fail> {
    let mut ring = BitRing::open(rt.alloc(), 64)?;
    ring.push_word(Word::of(0xF4, 8));
    ring.push(true);
    assert!(rt; ring.held() == 9);
    let first = [ring.get(0), ring.get(1)];
    ring.push_word(Word::of(0x0123_4567_89AB_CDEF, 60));
    assert!(rt; ring.held() == 64);
    let all = ring.read(0, 64).number();
    ring.drop_oldest(60);
    assert!(rt; ring.held() == 4);
    let last = ring.read(1, 3).number();
    assert!(rt; (first, all, last) == ([true, false], 0x9123_4567_89AB_CDEF, 0b111));
    Ok(())
}

/// The numbers from 0 to 23.
const COUNTED: [u8; 24] = [
    0, 1, 2, 3, 4, 5, 6, 7, 8, 9, 10, 11, 12, 13, 14, 15, 16, 17, 18, 19, 20, 21, 22, 23,
];

#[test]
fn nothing_is_held_at_first(rt: HostRuntime) -> Result<(), Fail> {
    let ring = BitRing::open(rt.alloc(), 192)?;
    let list = Packed::open(rt.alloc(), 150)?;
    let rooms = (ring.capacity(), list.capacity());
    assert!(rt; (ring.held(), list.len(), rooms) == (0, 0, (192, 150)));
    Ok(())
}

#[test]
fn bits_move_into_a_ring_and_out(rt: HostRuntime) -> Result<(), Fail> {
    let list = Packed::of_bytes(rt.alloc(), &COUNTED)?;
    let mut ring = BitRing::open(rt.alloc(), 192)?;
    let mut back = Packed::open(rt.alloc(), 150)?;
    assert!(rt; list.len() == 192);
    ring.append_bit(true);
    ring.append_from(&list, 4, 150);
    assert!(rt; ring.held() == 151);
    let first = ring.bit(0);
    ring.append_to(1, 150, &mut back);
    let (mut start, mut end) = ([0; 4], [0; 4]);
    let counts = [
        back.write_bytes(0, &mut start),
        back.write_bytes(112, &mut end),
    ];
    ring.clear();
    assert!(rt; (first, counts, ring.held()) == (true, [4, 4], 0));
    assert!(rt; [start, end] == [[0x00, 0x10, 0x20, 0x30], [0xE0, 0xF1, 0x01, 0x11]]);
    Ok(())
}

#[test]
fn words_place_by_place(rt: HostRuntime) -> Result<(), Fail> {
    let (a, b) = (Word::of(0b1100, 4), Word::of(0b1010, 4));
    let next = Word::of(0xF000_0000_0000_0001, 64);
    let found = [
        a.and(b).number(),
        a.or(b).number(),
        a.xor(b).number(),
        a.inverted().number(),
        Word::copies(true, 9).number(),
        a.placed(2).number(),
        a.shift_in(Word::of(0b011, 3)).number(),
        a.shift_in(Word::of(0b100110, 6)).number(),
        a.slide(next, 1).number(),
        a.slide(next, 4).number(),
    ];
    assert!(rt;
        found
            == [
                0b1000,
                0b1110,
                0b0110,
                0b0011,
                0x1FF,
                0b1100 << 58,
                0b0011,
                0b0110,
                0x9E00_0000_0000_0000,
                0xF000_0000_0000_0001,
            ]
    );
    let zeros = [
        Word::of(0b00101, 5).leading_zeros(),
        Word::copies(false, 64).leading_zeros(),
    ];
    assert!(rt; zeros == [2, 64]);
    Ok(())
}

#[test]
fn an_array_is_written_and_read_across_words(rt: HostRuntime) -> Result<(), Fail> {
    let mut array = BitArray::open(rt.alloc(), 100)?;
    let mut other = BitArray::open(rt.alloc(), 100)?;
    array.write(60, Word::of(0b1011_0110, 8));
    other.fill(true);
    assert!(rt; (array.len(), other.len()) == (100, 100));
    let bits = [array.get(60), array.get(61), array.get(66)];
    let zeros = [array.zeros(0, 100), array.zeros(67, 33)];
    other.write_masked(59, &array, Word::of(0b01_1111_1100, 10));
    assert!(rt; other.len() == 100);
    let numbers = [array.read(58, 12).number(), other.read(57, 14).number()];
    assert!(rt; (bits, zeros) == ([true, false, true], [60, 33]));
    assert!(rt; numbers == [0b0010_1101_1000, 0b11_0101_1011_0011]);
    Ok(())
}

#[test]
fn words_begin_with_the_bits_from_a_place_on(rt: HostRuntime) -> Result<(), Fail> {
    let bits = Packed::of_bytes(rt.alloc(), &NINE_BYTES)?;
    assert!(rt; bits.len() == 72);
    let numbers = [
        bits.read_padded(1, 64).number(),
        bits.read_padded(60, 12).first(12).number(),
    ];
    assert!(rt; numbers == [0xE820_0000_0000_001F, 0xFA5]);
    Ok(())
}

/// A short list of a one and a zero.
fn one_and_zero(alloc: Global) -> Packed
    ensures { length result.bits ≡ 2 }
{
    let mut list = Packed::short(alloc);
    list.push(true);
    list.push(false);
    list
}

#[test]
fn lists_grow_by_bits_and_by_parts(rt: HostRuntime) -> Result<(), Fail> {
    let bytes = Packed::of_bytes(rt.alloc(), &[0xA5; 12])?;
    assert!(rt; bytes.len() == 96);
    let short = Packed::short(rt.alloc());
    let mut list = one_and_zero(rt.alloc());
    let pushed = [list.get(0), list.get(1)];
    list.reserve(80)?;
    let rooms = [short.capacity(), list.capacity(), bytes.capacity()];
    let counts = [short.len(), list.len()];
    assert!(rt; (pushed, counts, rooms) == ([true, false], [0, 2], [63, 82, 96]));
    let more = [list.append_some(&bytes, 8), list.append_some(&bytes, 0)];
    assert!(rt; list.len() == 82);
    assert!(rt; (more, list.read(0, 10).number()) == ([80, 0], 0b10_1010_0101));
    assert!(rt;
        list.to_bytes(rt.alloc())?.as_slice()
            == [0xA9, 0x69, 0x69, 0x69, 0x69, 0x69, 0x69, 0x69, 0x69, 0x69].as_slice()
    );
    Ok(())
}

#[test]
fn bits_are_turned_and_set(rt: HostRuntime) -> Result<(), Fail> {
    let mut list = Packed::of_bytes(rt.alloc(), &[0x0F, 0, 0, 0, 0, 0, 0, 0xFF, 0x3C])?;
    list.invert();
    let inverted = list.len();
    let numbers = [
        list.read(0, 64).number(),
        list.read(64, 8).number(),
        Word::copies(true, 64).inverted().number(),
        Word::copies(false, 3).inverted().number(),
    ];
    assert!(rt; numbers == [0xF0FF_FFFF_FFFF_FF00, 0xC3, 0, 7]);
    list.fill(true);
    let (set, ones) = (list.len(), list.ones(0, 72));
    list.fill(false);
    assert!(rt; [inverted, set, ones, list.len(), list.ones(0, 72)] == [72, 72, 72, 72, 0]);
    Ok(())
}
