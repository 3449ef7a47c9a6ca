//! Claims on `pdh_bits`.

ghost use Rattle.std.specs.Prelude.{◌≡◌, ◌/◌, ◌<◌, false, true, [], ◌∷◌, ◌++◌, length, drop, IfOk, IsOk, IsErr};

use pdh_bits::{BitOut, Full, bits_of, bytes_of};
use std::alloc::{AllocError, Global};

/// A full list refuses a bit and keeps its own.
pub fn full_drops_its_oldest(out: &mut BitOut, bit: bool) -> Result<(), Full>
    requires { length out.old.bits ≡ out.old.capacity }
    ensures refuses { IsErr result }
    ensures keeps { out.new ≡ out.old }
{
    out.push(bit)
}

/// A list with room for one bit takes a bit.
pub fn full_one_bit_early(out: &mut BitOut, bit: bool) -> Result<(), Full>
    requires { length out.old.bits < out.old.capacity }
    ensures takes { IsOk result }
    ensures last { out.new.bits ≡ out.old.bits ++ bit ∷ [] }
{
    out.push(bit)
}

/// Of a list of nine bits nine are held.
pub fn held_counts_bytes(out: &BitOut) -> u32
    requires { length out.now.bits ≡ 9 }
    ensures { result ≡ 9 }
{
    out.held()
}

/// There are as many bytes as whole bytes of bits.
pub fn last_partial_byte_is_written(alloc: Global, bits: &[bool]) -> Result<Vec<u8>, AllocError>
    ensures { IfOk result (λ bytes. length bytes.items ≡ length bits.now / 8) }
{
    bytes_of(alloc, bits)
}

/// The most significant bit of a byte is the first.
pub fn least_significant_bit_first(alloc: Global) -> Result<Vec<bool>, AllocError>
    ensures { IfOk result (λ bits. bits.items ≡ true ∷ false ∷ false ∷ false ∷ false ∷ false ∷ false ∷ false ∷ []) }
{
    bits_of(alloc, &[0x80])
}

/// Where a byte is taken of nine bits, the ninth stays.
pub fn loses_the_last_bit_when_bytes_are_taken(out: &mut BitOut, byte: &mut [u8]) -> usize
    requires nine { length out.old.bits ≡ 9 }
    requires one { length byte.old ≡ 1 }
    ensures { out.new.bits ≡ drop 8 out.old.bits }
{
    out.take_bytes(byte)
}

/// A list of sixteen bits has room for sixteen.
pub fn opens_with_half_the_room(alloc: Global) -> Result<BitOut, AllocError>
    ensures { IfOk result (λ out. out.capacity ≡ 16) }
{
    BitOut::open(alloc, 16)
}

/// Of sixteen bits two bytes are taken where there is room for them.
pub fn take_bytes_answers_one_too_few(out: &mut BitOut, bytes: &mut [u8]) -> usize
    requires sixteen { length out.old.bits ≡ 16 }
    requires two { length bytes.old ≡ 2 }
    ensures { result ≡ 2 }
{
    out.take_bytes(bytes)
}
