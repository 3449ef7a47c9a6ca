//! Packed lists from single bits, and back.

ghost use Rattle.std.specs.Prelude.{◌≡◌, length, IfOk};

use crate::packed::Packed;
use std::alloc::{AllocError, Global};

impl Packed {
    /// A list of these bits, with room for no more; or the refusal of memory for it.
    pub fn of_bits(alloc: Global, bits: &[bool]) -> Result<Packed, AllocError>
        ensures { IfOk result (λ list. list ≡ record { capacity = length bits.now; bits = bits.now }) }
    {
        let mut list = Packed::open(alloc, bits.len())?;
        for bit in bits {
            list.push(*bit);
        }
        Ok(list)
    }

    /// The bits one by one; or the refusal of memory for them.
    pub fn to_bits(&self, alloc: Global) -> Result<Vec<bool>, AllocError>
        ensures { IfOk result (λ bits. bits.items ≡ self.now.bits) }
    {
        let mut bits = Vec::with_capacity(alloc, self.len())?;
        for place in 0..self.len() {
            bits.push(self.get(place))?;
        }
        Ok(bits)
    }
}
