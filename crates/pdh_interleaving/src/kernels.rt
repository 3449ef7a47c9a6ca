//! The bits of tributaries put in turn, 64 of each of four by exchanges of bits between words, and eight of each of
//! seven by a table; and words of bits in turn put into a word for each tributary, by exchanges of bits between
//! words.

ghost use Rattle.std.specs.Prelude.{◌≡◌, ℕ, ◌+◌, ◌-◌, ◌*◌, ◌/◌, ◌%◌, ◌^◌, ◌<◌, ◌≤◌, ◌∷◌, [], if◌then◌else◌, slice_index, map};
ghost use Rattle.pdh_bits.specs.Bits.{bit, bits_of_byte};
ghost use Rattle.pdh_packed.specs.Words.{low_bits};
ghost use Rattle.pdh_interleaving.specs.Interleaving.{interleaved, spread, picked};

use crate::table::SPREAD7;

// Exchanges the bits of a number at the places that a mask has with those so many places above of another.
#[inline(always)]
fn swap(high: u64, low: u64, apart: u32, mask: u64) -> (u64, u64)
    requires few { apart < 64 }
    requires within { mask < 2 ^ (64 - apart) }
    ensures high { (k : ℕ) → bit result.0 k ≡ (if bit mask k then bit low (k + apart) else bit high k) }
    ensures low { (k : ℕ) → bit result.1 k ≡ (if bit (mask * 2 ^ apart) k then bit high (k - apart) else bit low k) }
{
    let differing = (high ^ (low >> apart)) & mask;
    (high ^ differing, low ^ (differing << apart))
}

/// The bits of four tributaries that stand in four words in turn, put into a word for each.
#[inline(always)]
pub(crate) fn columns4(a: u64, b: u64, c: u64, d: u64) -> [u64; 4]
    ensures { (j i : ℕ) → j < 4 → i < 64 → bit (slice_index result j) (63 - i) ≡ bit (slice_index (a ∷ b ∷ c ∷ d ∷ []) (i / 16)) (63 - (i % 16 * 4 + j)) }
{
    let (a1, c1) = swap(a, c, 32, 0x0000_0000_FFFF_FFFF);
    let (b1, d1) = swap(b, d, 32, 0x0000_0000_FFFF_FFFF);
    let (a2, c2) = swap(a1, c1, 8, 0x00FF_00FF_00FF_00FF);
    let (b2, d2) = swap(b1, d1, 8, 0x00FF_00FF_00FF_00FF);
    let (a3, c3) = swap(a2, c2, 2, 0x3333_3333_3333_3333);
    let (b3, d3) = swap(b2, d2, 2, 0x3333_3333_3333_3333);
    let (a4, b4) = swap(a3, b3, 16, 0x0000_FFFF_0000_FFFF);
    let (c4, d4) = swap(c3, d3, 16, 0x0000_FFFF_0000_FFFF);
    let (a5, b5) = swap(a4, b4, 4, 0x0F0F_0F0F_0F0F_0F0F);
    let (c5, d5) = swap(c4, d4, 4, 0x0F0F_0F0F_0F0F_0F0F);
    let (a6, b6) = swap(a5, b5, 1, 0x5555_5555_5555_5555);
    let (c6, d6) = swap(c5, d5, 1, 0x5555_5555_5555_5555);
    [a6, b6, c6, d6]
}

/// The bits of four words put in turn, in four words: the first sixteen of each in the first, and so on.
#[inline(always)]
pub(crate) fn rows4(a: u64, b: u64, c: u64, d: u64) -> [u64; 4]
    ensures { (j i : ℕ) → j < 4 → i < 64 → bit (slice_index result (i / 16)) (63 - (i % 16 * 4 + j)) ≡ bit (slice_index (a ∷ b ∷ c ∷ d ∷ []) j) (63 - i) }
{
    let (a1, c1) = swap(a, c, 2, 0x3333_3333_3333_3333);
    let (b1, d1) = swap(b, d, 2, 0x3333_3333_3333_3333);
    let (a2, c2) = swap(a1, c1, 8, 0x00FF_00FF_00FF_00FF);
    let (b2, d2) = swap(b1, d1, 8, 0x00FF_00FF_00FF_00FF);
    let (a3, c3) = swap(a2, c2, 32, 0x0000_0000_FFFF_FFFF);
    let (b3, d3) = swap(b2, d2, 32, 0x0000_0000_FFFF_FFFF);
    let (a4, b4) = swap(a3, b3, 1, 0x5555_5555_5555_5555);
    let (c4, d4) = swap(c3, d3, 1, 0x5555_5555_5555_5555);
    let (a5, b5) = swap(a4, b4, 4, 0x0F0F_0F0F_0F0F_0F0F);
    let (c5, d5) = swap(c4, d4, 4, 0x0F0F_0F0F_0F0F_0F0F);
    let (a6, b6) = swap(a5, b5, 16, 0x0000_FFFF_0000_FFFF);
    let (c6, d6) = swap(c5, d5, 16, 0x0000_FFFF_0000_FFFF);
    [a6, b6, c6, d6]
}

/// The next eight bits of seven tributaries in turn.
pub(crate) fn interleave7(a: u8, b: u8, c: u8, d: u8, e: u8, f: u8, g: u8) -> u64
    ensures small { result < 2 ^ 56 }
    ensures bits { low_bits 56 result ≡ interleaved (map bits_of_byte (a ∷ b ∷ c ∷ d ∷ e ∷ f ∷ g ∷ [])) 8 }
{
    64 * spread7(a)
        + 32 * spread7(b)
        + 16 * spread7(c)
        + 8 * spread7(d)
        + 4 * spread7(e)
        + 2 * spread7(f)
        + spread7(g)
}

// Keeps the bits of a number at the places that one mask has, and moves those of another down, so many places.
#[inline(always)]
fn moved(word: u64, kept: u64, others: u64, by: u32) -> u64
    requires few { by < 64 }
    ensures { (k : ℕ) → bit result k ≡ picked (bit kept k) (bit others (k + by)) (bit word k) (bit word (k + by)) }
{
    (word & kept) ^ ((word & others) >> by)
}

/// Eight rows of seven bits, which begin a word, each moved into a byte.
#[inline(always)]
pub(crate) fn rows_in_bytes(word: u64) -> u64
    ensures { (q : ℕ) → q < 56 → bit result (63 - (q / 7 * 8 + q % 7)) ≡ bit word (63 - q) }
{
    let halves = moved(word, 0xFFFF_FFF0_0000_0000, 0x0000_000F_FFFF_FF00, 4);
    let quarters = moved(halves, 0xFFFC_0000_FFFC_0000, 0x0003_FFF0_0003_FFF0, 2);
    moved(quarters, 0xFE00_FE00_FE00_FE00, 0x01FC_01FC_01FC_01FC, 1)
}

/// The bits of eight tributaries that stand in eight words in turn, put into a word for each of the first seven.
#[inline(always)]
pub(crate) fn columns7(a: u64, b: u64, c: u64, d: u64, e: u64, f: u64, g: u64, h: u64) -> [u64; 7]
    ensures { (j i : ℕ) → j < 7 → i < 64 → bit (slice_index result j) (63 - i)
        ≡ bit (slice_index (a ∷ b ∷ c ∷ d ∷ e ∷ f ∷ g ∷ h ∷ []) (i / 8)) (63 - (i % 8 * 8 + j)) }
{
    let (a1, e1) = swap(a, e, 32, 0x0000_0000_FFFF_FFFF);
    let (b1, f1) = swap(b, f, 32, 0x0000_0000_FFFF_FFFF);
    let (c1, g1) = swap(c, g, 32, 0x0000_0000_FFFF_FFFF);
    let (d1, h1) = swap(d, h, 32, 0x0000_0000_FFFF_FFFF);
    let (a2, e2) = swap(a1, e1, 4, 0x0F0F_0F0F_0F0F_0F0F);
    let (b2, f2) = swap(b1, f1, 4, 0x0F0F_0F0F_0F0F_0F0F);
    let (c2, g2) = swap(c1, g1, 4, 0x0F0F_0F0F_0F0F_0F0F);
    let (d2, h2) = swap(d1, h1, 4, 0x0F0F_0F0F_0F0F_0F0F);
    let (a3, c3) = swap(a2, c2, 16, 0x0000_FFFF_0000_FFFF);
    let (b3, d3) = swap(b2, d2, 16, 0x0000_FFFF_0000_FFFF);
    let (e3, g3) = swap(e2, g2, 16, 0x0000_FFFF_0000_FFFF);
    let (f3, h3) = swap(f2, h2, 16, 0x0000_FFFF_0000_FFFF);
    let (a4, c4) = swap(a3, c3, 2, 0x3333_3333_3333_3333);
    let (b4, d4) = swap(b3, d3, 2, 0x3333_3333_3333_3333);
    let (e4, g4) = swap(e3, g3, 2, 0x3333_3333_3333_3333);
    let (f4, h4) = swap(f3, h3, 2, 0x3333_3333_3333_3333);
    let (a5, b5) = swap(a4, b4, 8, 0x00FF_00FF_00FF_00FF);
    let (c5, d5) = swap(c4, d4, 8, 0x00FF_00FF_00FF_00FF);
    let (e5, f5) = swap(e4, f4, 8, 0x00FF_00FF_00FF_00FF);
    let (g5, h5) = swap(g4, h4, 8, 0x00FF_00FF_00FF_00FF);
    let (a6, b6) = swap(a5, b5, 1, 0x5555_5555_5555_5555);
    let (c6, d6) = swap(c5, d5, 1, 0x5555_5555_5555_5555);
    let (e6, f6) = swap(e5, f5, 1, 0x5555_5555_5555_5555);
    let (g6, h6) = swap(g5, h5, 1, 0x5555_5555_5555_5555);
    [a6, b6, c6, d6, e6, f6, g6]
}

fn spread7(byte: u8) -> u64
    ensures spread { result ≡ spread 7 (bits_of_byte byte) }
    ensures small { result ≤ 0x2_0408_1020_4081 }
{
    SPREAD7[byte as usize]
}
