//! Claims on `pdh_interleaving`.

ghost use Rattle.std.specs.Prelude.{◌≡◌, ℕ, ◌+◌, ◌-◌, ◌*◌, ◌/◌, ◌%◌, ◌<◌, ◌≤◌, ◌⊎◌, false, [], length, map, get_or, slice_index, All};
ghost use Rattle.pdh_bits.specs.Bits.{bit};

use pdh_interleaving::{deal_four, deal_seven, interleave};
use pdh_packed::Packed;

/// Bit s of a line of n tributaries is bit s / n of tributary s mod n, of as many bits of each as are put in turn.
pub fn first_bits_take_their_turn_again(tributaries: &[Packed], each: usize, line: &mut Packed)
    requires tributaries { (length tributaries.now ≡ 4) ⊎ (length tributaries.now ≡ 7) }
    requires within { All (λ t. each ≤ length t.bits) tributaries.now }
    requires empty { line.old.bits ≡ [] }
    requires room { each * length tributaries.now ≤ line.old.capacity }
    ensures { (s : ℕ) → s < each * length tributaries.now
        → get_or line.new.bits s false ≡ get_or (get_or (map (λ t. t.bits) tributaries.now)
        (s % length tributaries.now) []) (s / length tributaries.now) false }
{
    interleave(tributaries, 0, each, line);
}

/// Bit i of tributary j of four is bit i mod 16 * 4 + j of word i / 16, of as many bits as are dealt to each.
pub fn deals_the_same_word_twice(words: [u64; 4], count: u32, tributaries: &mut [Packed])
    requires four { length tributaries.old ≡ 4 }
    requires few { count ≤ 64 }
    requires empty { (j : ℕ) → get_or (map (λ t. t.bits) tributaries.old) j [] ≡ [] }
    requires room { All (λ t. length t.bits + count ≤ t.capacity) tributaries.old }
    ensures { (i j : ℕ) → i < count → j < 4
        → get_or (get_or (map (λ t. t.bits) tributaries.new) j []) i false
        ≡ bit (slice_index words (i / 16)) (63 - (i % 16 * 4 + j)) }
{
    deal_four(words, count, tributaries);
}

/// Bit i of tributary j of seven is bit i mod 8 * 7 + j of word i / 8, of as many bits as are dealt to each.
pub fn deals_the_same_rows_twice(words: [u64; 8], count: u32, tributaries: &mut [Packed])
    requires seven { length tributaries.old ≡ 7 }
    requires few { count ≤ 64 }
    requires empty { (j : ℕ) → get_or (map (λ t. t.bits) tributaries.old) j [] ≡ [] }
    requires room { All (λ t. length t.bits + count ≤ t.capacity) tributaries.old }
    ensures { (i j : ℕ) → i < count → j < 7
        → get_or (get_or (map (λ t. t.bits) tributaries.new) j []) i false
        ≡ bit (slice_index words (i / 8)) (63 - (i % 8 * 7 + j)) }
{
    deal_seven(words, count, tributaries);
}
