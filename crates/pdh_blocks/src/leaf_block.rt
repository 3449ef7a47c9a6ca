//! A leaf's list: its file, and the block of it that was read last.

ghost use Rattle.std.specs.Prelude.{◌≡◌, ◌+◌, ◌-◌, ◌%◌, ◌^◌, ◌<◌, ◌≤◌, [], ◌∷◌, ◌++◌, length, min, take, nat_lt, IfOk, OnOk, OnErr};
ghost use Rattle.std.specs.String.{string_bytes};
ghost use Rattle.pdh_edge.specs.Files.{Looks, Succeeds};

use pdh_edge::{Failed, Shelf};
use pdh_packed::Packed;
use std::alloc::{AllocError, Global};
use std::marker::Model;

/// How many bytes a block has.
pub(crate) const BLOCK_BYTES: usize = 4096;

/// How many bits a block has.
pub(crate) const BLOCK_BITS: usize = 32768;

/// What is left of a leaf's source, with the block of it that was read last.
#[derive(Drop)]
pub(crate) struct LeafBlock {
    name: String,
    // how many bits the leaf has, and how many of them were given
    bits: u64,
    given: u64,
    // the block, of whose bits those from `taken` to `end` wait
    block: Packed,
    taken: usize,
    end: usize,
}

impl Model for LeafBlock {
    ghost use Rattle.std.specs.Prelude.{◌≡◌, ◌-◌, ◌≤◌, take, drop, length};
    ghost use Rattle.std.specs.String.{string_bytes};
    ghost use Rattle.pdh_blocks.specs.Leaves.{Leaf};

    ghost Value = { Leaf };

    ghost view = { λ l. record { name = string_bytes l.name; bits = l.bits; given = l.given; waiting = take (l.end - l.taken) (drop l.taken l.block.bits) } };

    ghost invariant = { λ l. (l.taken ≤ l.end) × (l.end ≤ length l.block.bits) × (l.block.capacity ≡ 32768) };
}

impl LeafBlock {
    ghost use Rattle.pdh_blocks.specs.Leaves.{IsReadable, with_waiting, after_giving, IsBlockRead, IsBlockUnread, unread};

    /// Nothing was read; or no memory for the name and the block.
    pub(crate) fn open(alloc: Global, name: &String, bits: u64) -> Result<LeafBlock, AllocError>
        ensures { IfOk result (λ leaf. leaf ≡ unread (string_bytes name.now) bits) }
    {
        Ok(LeafBlock {
            name: String::from_str(alloc, name.as_str())?,
            bits,
            given: 0,
            block: Packed::open(alloc, BLOCK_BITS)?,
            taken: 0,
            end: 0,
        })
    }

    /// How many bits are left.
    pub(crate) fn left(&self) -> u64
        requires { self.now.given ≤ self.now.bits }
        ensures { result ≡ self.now.bits - self.now.given }
    {
        self.bits - self.given
    }

    /// How many bits wait.
    pub(crate) fn waiting(&self) -> usize
        ensures { result ≡ length self.now.waiting }
    {
        self.end - self.taken
    }

    /// Whether a bit waits.
    pub(crate) fn waits(&self) -> bool
        ensures { result ≡ nat_lt 0 (length self.now.waiting) }
    {
        self.taken < self.end
    }

    /// Reads the next block. After a failure of the call for it nothing waits still.
    pub(crate) fn read<S: Shelf>(&mut self, shelf: &mut S, buffer: &mut [u8]) -> Result<(), Failed>
        requires empty { self.old.waiting ≡ [] }
        requires more { self.old.given < self.old.bits }
        requires whole { self.old.given % 32768 ≡ 0 }
        requires readable { IsReadable (S.state shelf.old) self.old.name self.old.bits }
        requires block { length buffer.old ≡ 4096 }
        ensures fits { (S.state shelf.old).counts.read_faults < 2 ^ 64 }
        ensures looks { Looks (S.state shelf.old) (S.state shelf.new) }
        ensures ok { OnOk result (IsBlockRead (S.state shelf.old) self.old self.new) }
        ensures succeeds { OnOk result (Succeeds (S.state shelf.old) (S.state shelf.new)) }
        ensures err { OnErr result (IsBlockUnread self.old (S.state shelf.old) (S.state shelf.new)) }
        ensures same { OnErr result (self.new ≡ self.old) }
    {
        // a count fits its type
        let _fits = shelf.read_faults();
        let count = (self.bits - self.given).min(BLOCK_BITS as u64) as usize;
        let part = &mut buffer[..count.div_ceil(8)];
        shelf.read_at(self.name.as_str(), self.given / 8, part)?;
        self.block.clear();
        self.block.append_bytes(part);
        self.taken = 0;
        self.end = count;
        Ok(())
    }

    /// Gives bits that wait, at most so many, and answers how many.
    pub(crate) fn give(&mut self, most: usize, into: &mut Packed) -> usize
        requires room { length into.old.bits + most ≤ into.old.capacity }
        requires within { self.old.given + length self.old.waiting ≤ self.old.bits }
        ensures count { result ≡ min most (length self.old.waiting) }
        ensures given { into.new ≡ record into.old {
          bits = into.old.bits ++ take result self.old.waiting;
        } }
        ensures leaf { self.new ≡ after_giving result self.old }
    {
        let count = most.min(self.end - self.taken);
        into.append_from(&self.block, self.taken, count);
        self.taken += count;
        self.given += count as u64;
        count
    }

    /// Gives a bit that waits.
    pub(crate) fn give_bit(&mut self) -> bool
        requires some { 0 < length self.old.waiting }
        requires within { self.old.given + length self.old.waiting ≤ self.old.bits }
        ensures given { self.old.waiting ≡ result ∷ self.new.waiting }
        ensures leaf { self.new ≡ after_giving 1 self.old }
    {
        let bit = self.block.get(self.taken);
        self.taken += 1;
        self.given += 1;
        bit
    }
}
