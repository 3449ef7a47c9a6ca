//! Lists of bits from bytes, and whole bytes from lists of bits.

ghost use Rattle.std.specs.Prelude.{◌≡◌, ◌+◌, ◌*◌, ◌/◌, ◌++◌, length, min, take, drop, IfOk};
ghost use Rattle.pdh_bits.specs.Bits.{bits_of_byte, bits_of, number_of, bytes_of};

use crate::table::BITS;
use std::alloc::{AllocError, Global};

/// The bits of the bytes, the most significant bit of each byte first.
pub fn bits_of(alloc: Global, bytes: &[u8]) -> Result<Vec<bool>, AllocError>
    ensures { IfOk result (λ v. v.items ≡ bits_of bytes.now) }
{
    let mut bits = Vec::with_capacity(alloc, bytes.len().saturating_mul(8))?;
    for byte in bytes {
        bits.extend_from_slice(bits_of_byte(*byte))?;
    }
    Ok(bits)
}

/// The whole bytes of the bits. Up to seven last bits that fill no byte are left off.
pub fn bytes_of(alloc: Global, bits: &[bool]) -> Result<Vec<u8>, AllocError>
    ensures { IfOk result (λ v. v.items ≡ bytes_of bits.now) }
{
    let mut bytes = vec![in alloc; 0u8; bits.len() / 8]?;
    write_bytes(bits, &mut bytes);
    Ok(bytes)
}

/// Writes as many whole bytes of the bits as there are and fit, and answers their number.
pub(crate) fn write_bytes(bits: &[bool], into: &mut [u8]) -> usize
    ensures count { result ≡ min (length bits.now / 8) (length into.old) }
    ensures written { into.new ≡ take result (bytes_of bits.now) ++ drop result into.old }
{
    let count = into.len().min(bits.len() / 8);
    for place in 0..count {
        into[place] = number_of(&bits[8 * place..8 * place + 8]);
    }
    count
}

fn bits_of_byte(byte: u8) -> &'static [bool; 8]
    ensures { result.now ≡ bits_of_byte byte }
{
    &BITS[byte as usize]
}

fn number_of(bits: &[bool]) -> u8
    requires { length bits.now ≡ 8 }
    ensures { result ≡ number_of bits.now }
{
    128 * u8::from(bits[0])
        + 64 * u8::from(bits[1])
        + 32 * u8::from(bits[2])
        + 16 * u8::from(bits[3])
        + 8 * u8::from(bits[4])
        + 4 * u8::from(bits[5])
        + 2 * u8::from(bits[6])
        + u8::from(bits[7])
}
