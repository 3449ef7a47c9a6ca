//! Bits that wait until they fill whole bytes.

ghost use Rattle.std.specs.Prelude.{◌≡◌, ◌+◌, ◌*◌, ◌/◌, ◌%◌, ◌≤◌, ◌↔◌, [], ◌∷◌, ◌++◌, length, min, take, drop, IfOk, IsErr, OnOk, OnErr};
ghost use Rattle.pdh_bits.specs.Bits.{bytes_of};

use crate::bits::write_bytes;
use std::alloc::{AllocError, Global};
use std::marker::Model;

/// The refusal of a `BitOut` that holds as many bits as it may.
#[derive(Clone, Copy, Debug, PartialEq, Eq)]
pub struct Full;

/// Bits on their way to bytes, up to a capacity in bits. Only `open` takes memory.
#[derive(Drop)]
pub struct BitOut {
    buffer: Vec<bool>,
}

impl Model for BitOut {
    ghost use Rattle.std.specs.Prelude.{◌≤◌, vec_capacity};
    ghost use Rattle.pdh_bits.specs.BitOut.{BoundedBits};

    ghost Value = { BoundedBits };

    ghost view = { λ o. record { capacity = vec_capacity o.buffer; bits = o.buffer.items } };

    ghost invariant = { λ o. (8 ≤ vec_capacity o.buffer) × (vec_capacity o.buffer ≤ 65536) };
}

impl BitOut {
    /// An empty one with room for `cap` bits.
    pub fn open(alloc: Global, cap: u32) -> Result<BitOut, AllocError>
        requires least { 8 ≤ cap }
        requires most { cap ≤ 65536 }
        requires whole_bytes { cap % 8 ≡ 0 }
        ensures { IfOk result (λ o. o ≡ record { capacity = cap; bits = [] }) }
    {
        let buffer = Vec::with_capacity(alloc, cap as usize)?;
        Ok(BitOut { buffer })
    }

    /// Appends a bit, unless as many as it may hold are held.
    pub fn push(&mut self, bit: bool) -> Result<(), Full>
        ensures full { IsErr result ↔ (length self.old.bits ≡ self.old.capacity) }
        ensures ok { OnOk result (self.new ≡ record self.old { bits = self.old.bits ++ bit ∷ [] }) }
        ensures err { OnErr result (self.new ≡ self.old) }
    {
        if self.buffer.len() == self.buffer.capacity() {
            return Err(Full);
        }
        self.buffer.push_reserved(bit);
        Ok(())
    }

    /// How many bits are held.
    pub fn held(&self) -> u32
        ensures count { result ≡ length self.now.bits }
        ensures bounded { length self.now.bits ≤ self.now.capacity }
    {
        self.buffer.len() as u32
    }

    /// Moves out as many whole bytes as are held and fit, and answers their number.
    pub fn take_bytes(&mut self, into: &mut [u8]) -> usize
        ensures count { result ≡ min (length self.old.bits / 8) (length into.old) }
        ensures written { into.new ≡ take result (bytes_of self.old.bits) ++ drop result into.old }
        ensures left { self.new ≡ record self.old { bits = drop (8 * result) self.old.bits } }
    {
        let count = write_bytes(&self.buffer, into);
        let taken = 8 * count;
        self.buffer.copy_within(taken.., 0);
        self.buffer.truncate(self.buffer.len() - taken);
        count
    }
}
