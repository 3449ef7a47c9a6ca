//! Putting bits to outputs: before the first block is appended the outputs are started, in order.

ghost use Rattle.std.specs.Prelude.{◌≡◌, ◌+◌, ◌-◌, ◌<◌, ◌≤◌, length, take, drop, OnOk, OnErr};
ghost use Rattle.pdh_edge.specs.Ports.{for_leaf, only};

use crate::blocks::Blocks;
use crate::leaf_block::BLOCK_BITS;
use pdh_edge::{Failed, Shelf};
use pdh_packed::Packed;

impl Blocks {
    ghost use Rattle.pdh_blocks.specs.State.{over};
    ghost use Rattle.pdh_blocks.specs.Held.{HoldsBlocks, IsPort, HasRoomBut, WaitsAtMost, AreWritten, ChangesOnly};
    ghost use Rattle.pdh_blocks.specs.Kept.{IsRefused};
    ghost use Rattle.pdh_blocks.specs.Done.{StartsAtMost, AppendsWaiting, PutsBits};
    ghost use Rattle.pdh_blocks.specs.Opened.{IsWritten};

    // Starts the next output.
    fn start_next<S: Shelf>(&mut self, shelf: &mut S) -> Result<(), Failed>
        requires port { IsPort (over (S.state shelf.old) self.old) }
        requires more { self.old.started < length self.old.outputs.items }
        ensures done { StartsAtMost (over (S.state shelf.old) self.old)
            (over (S.state shelf.new) self.new) result }
        ensures ok { OnOk result (self.new.started ≡ self.old.started + 1) }
        ensures err { OnErr result (IsRefused (over (S.state shelf.new) self.new)) }
    {
        // a count fits its type
        let _fits = shelf.write_faults();
        let next = self.started;
        self.fresh = false;
        self.called = next + 1;
        let started = shelf.start(self.outputs[next].name());
        if started.is_ok() {
            self.started = next + 1;
            return Ok(());
        }
        Err(self.drain_failed(next))
    }

    // Starts the outputs of which the `start` hasn't answered Ok, in order.
    pub(crate) fn start_missing<S: Shelf>(&mut self, shelf: &mut S) -> Result<(), Failed>
        requires port { IsPort (over (S.state shelf.old) self.old) }
        ensures done { StartsAtMost (over (S.state shelf.old) self.old)
            (over (S.state shelf.new) self.new) result }
        ensures ok { OnOk result (self.new.started ≡ length self.new.outputs.items) }
        ensures err { OnErr result (IsRefused (over (S.state shelf.new) self.new)) }
    {
        while self.started < self.outputs.len() {
            self.start_next(shelf)?;
        }
        Ok(())
    }

    // Appends the whole bytes that wait for an output to its file.
    fn append_waiting<S: Shelf>(&mut self, shelf: &mut S, leaf: usize) -> Result<(), Failed>
        requires blocks { HoldsBlocks (over (S.state shelf.old) self.old) }
        requires room { HasRoomBut leaf (over (S.state shelf.old) self.old) }
        requires started { self.old.started ≡ length self.old.outputs.items }
        requires held { leaf < self.old.started }
        ensures done { AppendsWaiting (over (S.state shelf.old) self.old)
            (over (S.state shelf.new) self.new) result }
        ensures ok { OnOk result (WaitsAtMost 7 leaf (over (S.state shelf.new) self.new)) }
        ensures others { ChangesOnly leaf (over (S.state shelf.old) self.old)
            (over (S.state shelf.new) self.new) }
    {
        let appended = self.outputs[leaf].append(shelf, &mut self.buffer);
        if appended.is_ok() {
            return Ok(());
        }
        Err(self.drain_failed(leaf))
    }

    // Puts bits of a list to an output, so many from a place on, which fill its block at most.
    fn put_part<S: Shelf>(
        &mut self,
        shelf: &mut S,
        leaf: usize,
        bits: &Packed,
        place: usize,
        count: usize,
    ) -> Result<(), Failed>
        requires port { IsPort (over (S.state shelf.old) self.old) }
        requires held { leaf < length self.old.outputs.items }
        requires within { place + count ≤ length bits.now.bits }
        requires few { count ≤ 32768 }
        requires fits { WaitsAtMost (32768 - count) leaf (over (S.state shelf.old) self.old) }
        ensures { PutsBits (for_leaf leaf (take count (drop place bits.now.bits)))
            (over (S.state shelf.old) self.old) (over (S.state shelf.new) self.new) result }
    {
        if self.outputs[leaf].len() + count < BLOCK_BITS {
            self.outputs[leaf].take(bits, place, count);
            return Ok(());
        }
        self.start_missing(shelf)?;
        self.outputs[leaf].take(bits, place, count);
        self.append_waiting(shelf, leaf)
    }

    /// Puts bits to an output.
    pub(crate) fn put_all<S: Shelf>(
        &mut self,
        shelf: &mut S,
        leaf: u32,
        bits: &Packed,
    ) -> Result<(), Failed>
        requires port { IsPort (over (S.state shelf.old) self.old) }
        requires held { leaf < length self.old.outputs.items }
        ensures { PutsBits (for_leaf leaf bits.now.bits)
            (over (S.state shelf.old) self.old) (over (S.state shelf.new) self.new) result }
    {
        let output = &mut self.outputs[leaf as usize];
        if bits.len() < BLOCK_BITS - output.len() {
            output.take_all(bits);
            return Ok(());
        }
        self.put_parts(shelf, leaf, bits)
    }

    // The same in parts, of which each fills the block at most.
    #[cold]
    #[inline(never)]
    fn put_parts<S: Shelf>(&mut self, shelf: &mut S, leaf: u32, bits: &Packed) -> Result<(), Failed>
        requires port { IsPort (over (S.state shelf.old) self.old) }
        requires held { leaf < length self.old.outputs.items }
        ensures { PutsBits (for_leaf leaf bits.now.bits)
            (over (S.state shelf.old) self.old) (over (S.state shelf.new) self.new) result }
    {
        let leaf = leaf as usize;
        let mut place = 0;
        while place < bits.len() {
            let room = BLOCK_BITS - self.outputs[leaf].len();
            let count = room.min(bits.len() - place);
            self.put_part(shelf, leaf, bits, place, count)?;
            place += count;
        }
        Ok(())
    }

    /// Puts a bit to an output.
    pub(crate) fn put<S: Shelf>(
        &mut self,
        shelf: &mut S,
        leaf: u32,
        bit: bool,
    ) -> Result<(), Failed>
        requires port { IsPort (over (S.state shelf.old) self.old) }
        requires held { leaf < length self.old.outputs.items }
        ensures { PutsBits (only leaf bit)
            (over (S.state shelf.old) self.old) (over (S.state shelf.new) self.new) result }
    {
        let output = &mut self.outputs[leaf as usize];
        if output.len() + 1 < BLOCK_BITS {
            output.push(bit);
            return Ok(());
        }
        self.put_last(shelf, leaf, bit)
    }

    // The same, and appends what waits then.
    #[cold]
    #[inline(never)]
    fn put_last<S: Shelf>(&mut self, shelf: &mut S, leaf: u32, bit: bool) -> Result<(), Failed>
        requires port { IsPort (over (S.state shelf.old) self.old) }
        requires held { leaf < length self.old.outputs.items }
        ensures { PutsBits (only leaf bit)
            (over (S.state shelf.old) self.old) (over (S.state shelf.new) self.new) result }
    {
        let leaf = leaf as usize;
        self.start_missing(shelf)?;
        self.outputs[leaf].push(bit);
        self.append_waiting(shelf, leaf)
    }

    // Appends the whole bytes that wait for an output, if there are any.
    fn finish_output<S: Shelf>(&mut self, shelf: &mut S, leaf: usize) -> Result<(), Failed>
        requires port { IsPort (over (S.state shelf.old) self.old) }
        requires held { leaf < length self.old.outputs.items }
        ensures done { AppendsWaiting (over (S.state shelf.old) self.old)
            (over (S.state shelf.new) self.new) result }
        ensures ok { OnOk result (WaitsAtMost 7 leaf (over (S.state shelf.new) self.new)) }
        ensures others { ChangesOnly leaf (over (S.state shelf.old) self.old)
            (over (S.state shelf.new) self.new) }
        ensures none { WaitsAtMost 7 leaf (over (S.state shelf.old) self.old)
            → over (S.state shelf.new) self.new ≡ over (S.state shelf.old) self.old }
    {
        if self.outputs[leaf].len() < 8 {
            return Ok(());
        }
        self.start_missing(shelf)?;
        self.append_waiting(shelf, leaf)
    }

    /// Appends the whole bytes that wait, for every output in order.
    pub(crate) fn finish<S: Shelf>(&mut self, shelf: &mut S) -> Result<(), Failed>
        requires port { IsPort (over (S.state shelf.old) self.old) }
        ensures done { AppendsWaiting (over (S.state shelf.old) self.old)
            (over (S.state shelf.new) self.new) result }
        ensures ok { OnOk result (IsWritten (over (S.state shelf.new) self.new)) }
        ensures none { AreWritten (over (S.state shelf.old) self.old)
            → over (S.state shelf.new) self.new ≡ over (S.state shelf.old) self.old }
    {
        for leaf in 0..self.outputs.len() {
            self.finish_output(shelf, leaf)?;
        }
        Ok(())
    }
}
