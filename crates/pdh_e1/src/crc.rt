//! The CRC-4 of G.704, 2.3.3.5, by a register of four bits.

ghost use Rattle.std.specs.Prelude.{◌≡◌, ◌<◌, List, Bool, ◌++◌};
ghost use Rattle.pdh_bits.specs.Bits.{bits_of, bits_of_byte};
ghost use Rattle.pdh_e1.specs.Crc4.{crc4};

/// What four bits leave in a register that held nothing, by their number.
const FOUR_BITS: [u8; 16] = [0, 3, 6, 5, 12, 15, 10, 9, 11, 8, 13, 14, 7, 4, 1, 2];

/// The CRC-4 word of bits and of those of octets behind them, by the word of the bits.
pub fn crc4_after(word: u8, octets: &[u8]) -> u8
    requires { word < 16 }
    ensures word { (bits : List Bool) → word ≡ crc4 bits → result ≡ crc4 (bits ++ bits_of octets.now) }
    ensures four_bits { result < 16 }
{
    let mut register = word;
    for octet in octets {
        register = with_octet(register, *octet);
    }
    register
}

/// The register after one more octet.
fn with_octet(register: u8, octet: u8) -> u8
    requires { register < 16 }
    ensures word { (bits : List Bool)
        → register ≡ crc4 bits
        → result ≡ crc4 (bits ++ bits_of_byte octet) }
    ensures four_bits { result < 16 }
{
    let half = FOUR_BITS[usize::from(register ^ (octet >> 4))];
    FOUR_BITS[usize::from(half ^ (octet % 16))]
}
