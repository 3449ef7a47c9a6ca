//! The test pattern of a leaf. Its register is that of ITU-T O.150's pattern of 32,767 bits, and its
//! beginning this project's own.

ghost use Rattle.std.specs.Prelude.{◌≡◌, ℕ, suc, ◌+◌, ◌*◌, ◌%◌, ◌<◌, ◌≤◌, ◌++◌, length};
ghost use Rattle.pdh_bits.specs.Bits.{bit as bit_of, bit_value};
ghost use Rattle.pdh_patterns.specs.Pattern.{next_state, state_after, bits_from, HasGiven, pattern_bit, pattern};

use pdh_packed::Word;
use std::marker::Model;

// The states of the register, which is never 0.
const STATES: u64 = 32_767;

/// The test pattern of a leaf: a shift register of 15 bits, whose period is 32,767 bits (the generator of
/// ITU-T O.150's pattern of that length, x^15 + x^14 + 1).
#[derive(Drop)]
pub struct Pattern {
    state: u16,
}

impl Model for Pattern {
    ghost use Rattle.std.specs.Prelude.{ℕ, ◌<◌};

    ghost Value = { ℕ };

    ghost view = { λ p. p.state };

    ghost invariant = { λ p. p.state < 32768 };
}

// The bit of the register at a place, where bit 0 is the least significant.
fn bit(state: u16, place: u8) -> bool
    requires { place < 15 }
    ensures { result ≡ bit_of state place }
{
    (state >> place) % 2 == 1
}

// The register one step on, with this least bit.
fn shifted(state: u16, least: bool) -> u16
    requires { state < 32768 }
    ensures { result ≡ 2 * state % 32768 + bit_value least }
{
    2 * state % 32_768 + u16::from(least)
}

impl Pattern {
    /// The pattern of a leaf, counted from 0, of which no bit was given.
    pub fn new(seed: u64, leaf: u32) -> Pattern
        requires seed { seed ≤ 999999999 }
        requires leaf { leaf < 64 }
        ensures { HasGiven seed leaf 0 result }
    {
        let state = (64 * seed + u64::from(leaf)) % STATES + 1;
        Pattern {
            state: state as u16,
        }
    }

    /// The next bit.
    pub fn next(&mut self) -> bool
        ensures bit { result ≡ bit_of self.old 14 }
        ensures state { self.new ≡ next_state self.old }
        ensures given { (seed leaf n : ℕ) → HasGiven seed leaf n self.old
            → (result ≡ pattern_bit seed leaf n) × HasGiven seed leaf (suc n) self.new }
    {
        let given = bit(self.state, 14);
        let feedback = given != bit(self.state, 13);
        self.state = shifted(self.state, feedback);
        given
    }

    /// The next bits, so many: at most 64.
    pub fn word(&mut self, count: u32) -> Word
        requires few { count ≤ 64 }
        ensures next { result ≡ bits_from self.old count }
        ensures state { self.new ≡ state_after self.old count }
        ensures count { length result ≡ count }
        ensures given { (seed leaf n : ℕ) → HasGiven seed leaf n self.old → HasGiven seed leaf (n + count) self.new }
        ensures bits { (seed leaf n : ℕ) → HasGiven seed leaf n self.old
            → pattern seed leaf n ++ result ≡ pattern seed leaf (n + count) }
    {
        let mut word = Word::empty();
        for _bit in 0..count {
            word.push(self.next());
        }
        word
    }
}
