//! An output's list: its file, and the block of bits that wait to be appended.

ghost use Rattle.std.specs.Prelude.{◌≡◌, ◌+◌, ◌^◌, ◌<◌, ◌≤◌, [], ◌∷◌, ◌++◌, length, take, drop, IfOk, OnOk, OnErr};
ghost use Rattle.std.specs.String.{string_bytes};
ghost use Rattle.pdh_edge.specs.Files.{Touches};

use crate::leaf_block::BLOCK_BITS;
use pdh_edge::{Failed, Shelf};
use pdh_packed::{Packed, Word};
use std::alloc::{AllocError, Global};
use std::marker::Model;

/// An output, with the bits that wait to be appended to its file.
#[derive(Drop)]
pub(crate) struct OutputBlock {
    name: String,
    block: Packed,
}

impl Model for OutputBlock {
    ghost use Rattle.std.specs.Prelude.{◌≡◌};
    ghost use Rattle.std.specs.String.{string_bytes};
    ghost use Rattle.pdh_blocks.specs.Leaves.{Output};

    ghost Value = { Output };

    ghost view = { λ o. record { name = string_bytes o.name; waiting = o.block.bits } };

    ghost invariant = { λ o. o.block.capacity ≡ 32768 };
}

impl OutputBlock {
    ghost use Rattle.pdh_blocks.specs.Leaves.{to_wait, IsAppended, IsEmptied};

    /// Nothing waits; or no memory for the name and the block.
    pub(crate) fn open(alloc: Global, name: &String) -> Result<OutputBlock, AllocError>
        ensures { IfOk result (λ output. output ≡ record { name = string_bytes name.now; waiting = [] }) }
    {
        Ok(OutputBlock {
            name: String::from_str(alloc, name.as_str())?,
            block: Packed::open(alloc, BLOCK_BITS)?,
        })
    }

    /// The name of its file.
    pub(crate) fn name(&self) -> &str
        ensures { result.now ≡ self.now.name }
    {
        self.name.as_str()
    }

    /// How many bits wait.
    pub(crate) fn len(&self) -> usize
        ensures count { result ≡ length self.now.waiting }
        ensures bounded { result ≤ 32768 }
    {
        self.block.len()
    }

    /// Takes bits of a list, so many from a place on, for which there is room.
    pub(crate) fn take(&mut self, bits: &Packed, place: usize, count: usize)
        requires within { place + count ≤ length bits.now.bits }
        requires room { length self.old.waiting + count ≤ 32768 }
        ensures { self.new ≡ to_wait (self.old.waiting ++ take count (drop place bits.now.bits)) self.old }
    {
        self.block.append_from(bits, place, count);
    }

    /// Takes all bits of a list, for which there is room.
    pub(crate) fn take_all(&mut self, bits: &Packed)
        requires { length self.old.waiting + length bits.now.bits ≤ 32768 }
        ensures { self.new ≡ to_wait (self.old.waiting ++ bits.now.bits) self.old }
    {
        self.block.append_all(bits);
    }

    /// Takes a bit, for which there is room.
    pub(crate) fn push(&mut self, bit: bool)
        requires { length self.old.waiting < 32768 }
        ensures { self.new ≡ to_wait (self.old.waiting ++ bit ∷ []) self.old }
    {
        self.block.push(bit);
    }

    /// Appends the whole bytes that wait to the file; after a failure nothing waits any more.
    pub(crate) fn append<S: Shelf>(
        &mut self,
        shelf: &mut S,
        buffer: &mut [u8],
    ) -> Result<(), Failed>
        requires block { length buffer.old ≡ 4096 }
        ensures fits { (S.state shelf.old).counts.write_faults < 2 ^ 64 }
        ensures kept { Touches self.old.name (S.state shelf.old) (S.state shelf.new) }
        ensures ok { OnOk result (IsAppended self.old self.new (S.state shelf.old) (S.state shelf.new)) }
        ensures err { OnErr result (IsEmptied self.old self.new (S.state shelf.old) (S.state shelf.new)) }
    {
        // a count fits its type
        let _fits = shelf.write_faults();
        let bytes = self.block.write_bytes(0, buffer);
        let rest = self
            .block
            .read(8 * bytes, (self.block.len() - 8 * bytes) as u32);
        self.block.clear();
        shelf.append(self.name.as_str(), &buffer[..bytes])?;
        self.block.append(rest);
        Ok(())
    }
}
