//! The far end alarm and control channel: sending a code's word again and again, and telling the
//! codes of received bits.

ghost use Rattle.std.specs.Prelude.{◌≡◌, ℕ, ◌+◌, ◌*◌, ◌%◌, ◌^◌, ◌<◌, ◌≤◌, ◌↔◌, min, if◌then◌else◌, Bool, List, [], ◌∷◌, ◌++◌};
ghost use Rattle.pdh_bits.specs.Bits.{bit, with_bit, number_of};
ghost use Rattle.pdh_cbit.specs.Feac.{word_of, feac_bit, answer_of};
ghost use Rattle.pdh_cbit.specs.Channel.{HasSent, HasReceived, TellsCode};

use std::marker::Model;

/// Sends a code over the far end alarm and control channel: the bits of its word, again and again.
#[derive(Drop)]
pub struct FeacSender {
    code: u8,
    // the place in the word of the bit to come
    place: u8,
}

impl Model for FeacSender {
    ghost use Rattle.std.specs.Prelude.{◌<◌};
    ghost use Rattle.pdh_cbit.specs.Channel.{Sending};

    ghost Value = { Sending };

    ghost view = { λ s. record { code = s.code; place = s.place } };

    ghost invariant = { λ s. (s.code < 64) × (s.place < 16) };
}

impl FeacSender {
    /// A sender of the code that has sent no bit.
    pub fn new(code: u8) -> FeacSender
        requires { code < 64 }
        ensures code { result.code ≡ code }
        ensures none { HasSent result 0 }
    {
        FeacSender { code, place: 0 }
    }

    /// The next bit.
    pub fn next(&mut self) -> bool
        ensures bit { (sent : ℕ) → HasSent self.old sent → result ≡ feac_bit self.old.code sent }
        ensures sent { (sent : ℕ) → HasSent self.old sent → HasSent self.new (sent + 1) }
        ensures code { self.new.code ≡ self.old.code }
    {
        let bit = bit_of_word(self.code, self.place);
        self.place = (self.place + 1) % 16;
        bit
    }
}

// The bit at a place of the code's word.
fn bit_of_word(code: u8, place: u8) -> bool
    requires { place < 16 }
    ensures { result ≡ feac_bit code place }
{
    match place {
        0..=7 => true,
        9..=14 => (code >> (14 - place)) % 2 == 1,
        _ => false,
    }
}

// How many bits equal the bit sixteen before them where ten words have come, and where eleven have.
const TEN_WORDS: u8 = 144;

const ELEVEN_WORDS: u8 = 160;

/// Receives the codes of the far end alarm and control channel.
#[derive(Drop)]
pub struct FeacReceiver {
    // the last sixteen bits, the latest least significant
    register: u16,
    // how many bits, from the latest back, equal the bit sixteen before them, up to ELEVEN_WORDS
    repeated: u8,
}

impl Model for FeacReceiver {
    ghost use Rattle.std.specs.Prelude.{◌≤◌};
    ghost use Rattle.pdh_cbit.specs.Channel.{Receiving};

    ghost Value = { Receiving };

    ghost view = { λ r. record { register = r.register; repeated = r.repeated } };

    ghost invariant = { λ r. r.repeated ≤ 160 };
}

impl FeacReceiver {
    /// A receiver that has taken no bit.
    pub fn new() -> FeacReceiver
        ensures { HasReceived result [] }
    {
        FeacReceiver {
            register: 0,
            repeated: 0,
        }
    }

    /// Takes a bit, and answers the code that the bits so far answer at it: it has been told by ten
    /// words, and hadn't been one word earlier.
    pub fn push(&mut self, bit: bool) -> Option<u8>
        ensures received { (bits : List Bool) → HasReceived self.old bits → HasReceived self.new (bits ++ bit ∷ []) }
        ensures answer { (bits : List Bool) → HasReceived self.old bits → result ≡ answer_of (bits ++ bit ∷ []) }
    {
        self.repeated = repeated_with(self.repeated, bit == oldest(self.register));
        self.register = register_with(self.register, bit);
        told_code(self.register, self.repeated)
    }
}

// The bit sixteen before the one to come.
fn oldest(register: u16) -> bool
    ensures { result ≡ bit register 15 }
{
    register >> 15 == 1
}

// The register with one more bit.
fn register_with(register: u16, bit: bool) -> u16
    ensures { result ≡ with_bit (register % 2 ^ 15) bit }
{
    2 * (register % 0x8000) + u16::from(bit)
}

// The number of repeated bits with one more.
fn repeated_with(repeated: u8, equal: bool) -> u8
    requires { repeated ≤ 160 }
    ensures { result ≡ (if equal then min 160 (repeated + 1) else 0) }
{
    if equal {
        (repeated + 1).min(ELEVEN_WORDS)
    } else {
        0
    }
}

// The code that is told at the last bit that came.
fn told_code(register: u16, repeated: u8) -> Option<u8>
    ensures { (code : ℕ) → (result ≡ Some code) ↔ TellsCode register repeated code }
{
    let code = (register / 2 % 64) as u8;
    if register == word_of(code) && repeated >= TEN_WORDS && repeated < ELEVEN_WORDS {
        Some(code)
    } else {
        None
    }
}

// The word of a code as a number.
fn word_of(code: u8) -> u16
    requires { code < 64 }
    ensures number { result ≡ number_of (word_of code) }
    ensures parts { result ≡ 0xFF00 + 2 * code }
{
    0xFF00 + 2 * u16::from(code)
}
