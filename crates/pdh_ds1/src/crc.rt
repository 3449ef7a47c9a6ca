//! The CRC-6 of an extended superframe (ITU-T G.704, 2.1.3.1.2), by a register of six bits.

ghost use Rattle.std.specs.Prelude.{◌≡◌, ◌<◌, List, Bool, [], ◌∷◌, ◌++◌};
ghost use Rattle.pdh_bits.specs.Bits.{bits_of, bits_of_byte};
ghost use Rattle.pdh_ds1.specs.Crc6.{crc6};

/// The CRC-6 word of bits and of those of octets behind them, by the word of the bits.
pub fn crc6_after(word: u8, octets: &[u8]) -> u8
    requires { word < 64 }
    ensures word { (bits : List Bool) → word ≡ crc6 bits → result ≡ crc6 (bits ++ bits_of octets.now) }
    ensures six_bits { result < 64 }
{
    let mut register = word;
    for octet in octets {
        register = with_octet(register, *octet);
    }
    register
}

/// The register after one more octet.
fn with_octet(register: u8, octet: u8) -> u8
    requires { register < 64 }
    ensures word { (bits : List Bool) → register ≡ crc6 bits → result ≡ crc6 (bits ++ bits_of_byte octet) }
    ensures six_bits { result < 64 }
{
    // these times x^6 are these times x + 1,
    let bits = u16::from((4 * register) ^ octet);
    let times = bits ^ (2 * bits);
    // and so are the highest of them
    let high = times / 64;
    ((times % 64) ^ high ^ (2 * high)) as u8
}

/// The register after one more bit.
pub(crate) fn with_bit(register: u8, bit: bool) -> u8
    requires { register < 64 }
    ensures word { (bits : List Bool) → register ≡ crc6 bits → result ≡ crc6 (bits ++ bit ∷ []) }
    ensures six_bits { result < 64 }
{
    let moved = 2 * (register % 32);
    if (register >= 32) != bit {
        moved ^ 3
    } else {
        moved
    }
}
