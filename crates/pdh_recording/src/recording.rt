//! A recording that is open.

ghost use Rattle.std.specs.Prelude.{◌≡◌, ◌≤◌, ◌<◌, ◌+◌, ◌-◌, ◌*◌, ◌%◌, ◌++◌, ◌⊎◌, true, false, [], length, min, take, drop, replicate, option_map, IfOk, IfSome, OnOk};
ghost use Rattle.std.specs.Io.KnownBytes.{Keeps, Consumes};
ghost use Rattle.pdh_readings.specs.declared.bit_order.BitOrder.{BitOrder as Order};

use crate::ahead::Ahead;
use crate::fault::Fault;
use crate::filling::{End, fill};
use crate::part::{PART_BITS, PART_BYTES, Part};
use crate::replay::Replay;
use pdh_packed::Packed;
use pdh_readings::{BitOrder, read};
use std::alloc::{AllocError, Global};
use std::io::Read;

// How many bytes are read at once.
const BLOCK_BYTES: usize = 65_536;

/// How many bits come at once, at most.
pub const BLOCK_BITS: usize = 524_288;

/// A recording that is open: its bits from a bit on, and no more than so many.
#[derive(Drop)]
pub struct Recording<R: Read + Drop> {
    alloc: Global,
    replay: Replay<R>,
    // the bit of the file from which it is read, and the byte that comes next
    from: u64,
    byte: u64,
    // so many bits of that byte are passed over
    skip: u32,
    // so many bits may still come, and if it is sized, so many do
    left: u64,
    sized: bool,
    ghost skips: { skip < 8 },
}

// How many bytes hold so many bits behind some that are passed over, as far as a block goes.
fn bytes_for(skip: u32, bits: u64, most: usize) -> usize
    requires { skip < 8 }
    ensures few { result ≤ most }
    ensures enough { (result ≡ most) ⊎ (skip + bits ≤ 8 * result) }
{
    let whole = bits / 8;
    if whole >= most as u64 {
        return most;
    }
    let rest = (u64::from(skip) + bits % 8).div_ceil(8);
    (whole + rest).min(most as u64) as usize
}

// So many bytes.
fn open_block(alloc: Global, bytes: usize) -> Result<Vec<u8>, AllocError>
    ensures { IfOk result (λ block. length block.items ≡ bytes) }
{
    vec![in alloc; 0u8; bytes]
}

// Appends those bits of a block that are wanted, behind some that are passed over, and answers how many.
fn append_wanted(bits: &Packed, skip: u32, left: u64, into: &mut Packed) -> usize
    requires { length into.old.bits + length bits.now.bits ≤ into.old.capacity }
    ensures count { result ≡ min (length bits.now.bits - min (length bits.now.bits) skip) left }
    ensures bits { into.new ≡ record into.old { bits = into.old.bits ++ take result (drop (min (length bits.now.bits) skip) bits.now.bits) } }
{
    let skip = bits.len().min(skip as usize);
    let count = ((bits.len() - skip) as u64).min(left) as usize;
    into.append_from(bits, skip, count);
    count
}

impl<R: Read + Drop> Recording<R> {
    ghost use Rattle.pdh_readings.specs.Orders.{read_as};
    ghost use Rattle.pdh_recording.specs.Given.{kept, kept_bytes, replayed, recorded, bits_left, Gives, HasNone, IsWhole};
    ghost use Rattle.pdh_recording.specs.Seen.{HasEnough, HasPart, Shows};

    /// A recording that is read from a bit of the file on, the byte of which is the reader's next one. It has no more than so many
    /// bits, and if it is sized, so many.
    pub fn new(alloc: Global, reader: R, from: u64, left: u64, sized: bool) -> Recording<R>
        ensures begins { (order : Order) → bits_left R.remaining order result ≡ option_map (recorded order (from % 8) left) (R.remaining reader) }
        ensures reader { result.replay.reader ≡ reader }
        ensures left { result.left ≡ left }
        ensures skip { result.skip ≡ from % 8 }
        ensures sized { result.sized ≡ sized }
    {
        Recording {
            alloc,
            replay: Replay {
                ahead: Ahead::new(alloc),
                reader,
            },
            from,
            byte: from / 8,
            skip: (from % 8) as u32,
            left,
            sized,
        }
    }

    // Reads bytes ahead until so many are kept, and tells whether there were so many.
    fn keep(&mut self, count: usize) -> Result<bool, Fault>
        ensures replayed { OnOk result (Keeps (replayed R.remaining self.old.replay) (replayed R.remaining self.new.replay)) }
        ensures enough { IfOk result (λ all. HasEnough all count (length (kept self.new.replay.ahead)) (R.remaining self.new.replay.reader)) }
        ensures run { self.new.replay.ahead.run ≡ self.old.replay.ahead.run }
        ensures left { self.new.left ≡ self.old.left }
        ensures skip { self.new.skip ≡ self.old.skip }
    {
        let kept = self.replay.ahead.kept().len();
        let Ok(mut more) = open_block(self.alloc, count.saturating_sub(kept)) else {
            return Err(Fault::OutOfMemory);
        };
        let filled = fill(&mut self.replay.reader, &mut more);
        if filled.end == End::Failed {
            let ahead = self.replay.ahead.passed().saturating_add(kept as u64);
            let come = ahead.saturating_add(filled.count as u64);
            return Err(Fault::Unreadable {
                byte: self.byte.saturating_add(come),
            });
        }
        if self.replay.ahead.append(&more[..filled.count]).is_err() {
            return Err(Fault::OutOfMemory);
        }
        Ok(filled.end == End::Full)
    }

    // How many bits lie in the bytes that are passed over.
    fn bits_passed(&self) -> u64
        ensures { result ≡ 8 * self.now.replay.ahead.run - self.now.skip }
    {
        (8 * self.replay.ahead.passed()).saturating_sub(u64::from(self.skip))
    }

    // Which bit of the bytes that are kept is the first one.
    fn first_kept(&self) -> u32
        ensures small { result < 8 }
        ensures place { result + 8 * self.now.replay.ahead.run ≡ self.now.skip + (8 * self.now.replay.ahead.run - self.now.skip) }
    {
        if self.replay.ahead.passed() == 0 {
            self.skip
        } else {
            0
        }
    }

    // How many bytes are to be kept for the part.
    fn bytes_of_part(&self) -> usize
        ensures { (result ≡ 131073) ⊎ (self.now.skip + self.now.left ≤ 8 * (self.now.replay.ahead.run + result)) }
    {
        let bits = self.left.saturating_sub(self.bits_passed());
        bytes_for(self.first_kept(), bits, PART_BYTES)
    }

    // Reads ahead what the part wants, passes over bytes of it, and tells whether it wants more.
    fn read_ahead(&mut self) -> Result<bool, Fault>
        ensures replayed { OnOk result (Keeps (replayed R.remaining self.old.replay) (replayed R.remaining self.new.replay)) }
        ensures further { IfOk result (λ more. more ≡ true → self.old.replay.ahead.run < self.new.replay.ahead.run) }
        ensures whole { IfOk result (λ more. more ≡ false → HasPart R.remaining self.new) }
        ensures left { self.new.left ≡ self.old.left }
        ensures skip { self.new.skip ≡ self.old.skip }
    {
        let all = self.keep(self.bytes_of_part())?;
        let passed = self.replay.ahead.pass_over();
        Ok(all && passed)
    }

    /// Reads the part ahead, before anything else is read; its bits come all the same. It fails where the recording has no bits.
    pub fn read_part(&mut self) -> Result<(), Fault>
        ensures given { OnOk result ((order : Order) → Gives (bits_left R.remaining order self.old) (bits_left R.remaining order self.new) []) }
        ensures whole { OnOk result (HasPart R.remaining self.new) }
    {
        while self.read_ahead()? {}
        if self.replay.ahead.kept().is_empty() {
            return Err(Fault::NoBits { bit: self.from });
        }
        Ok(())
    }

    /// The part that was read ahead: what comes next of the recording, behind bits that are all alike.
    pub fn part(&self) -> Part<'_>
        ensures seen { (order : Order) → Shows (bits_left R.remaining order self.now) (take result.bits (drop result.first (read_as order result.bytes.now))) }
        ensures constant { IfSome result.constant (λ byte. kept_bytes self.now.replay.ahead ≡ replicate (self.now.replay.ahead.run + 1) byte) }
    {
        let bytes = self.replay.ahead.kept();
        let first = self.first_kept();
        let kept = (bytes.len() as u64).saturating_mul(8);
        let left = self.left.saturating_sub(self.bits_passed());
        Part {
            bytes,
            first,
            bits: left
                .min(kept.saturating_sub(u64::from(first)))
                .min(PART_BITS),
            constant: self.replay.ahead.constant(),
        }
    }

    // Reads the next block.
    fn read_block(&mut self) -> Result<Vec<u8>, Fault>
        ensures few { IfOk result (λ block. length block.items ≤ 65536) }
        ensures read { IfOk result (λ block. Consumes (replayed R.remaining self.old.replay) (replayed R.remaining self.new.replay) block.items) }
        ensures whole { IfOk result (λ block. IsWhole (length block.items) self.old.skip self.old.left (replayed R.remaining self.new.replay)) }
        ensures sized { IfOk result (λ block. self.old.sized ≡ true → (length block.items ≡ 65536) ⊎ (self.old.skip + self.old.left ≤ 8 * length block.items)) }
        ensures left { self.new.left ≡ self.old.left }
        ensures skip { self.new.skip ≡ self.old.skip }
    {
        let wanted = bytes_for(self.skip, self.left, BLOCK_BYTES);
        let Ok(mut block) = open_block(self.alloc, wanted) else {
            return Err(Fault::OutOfMemory);
        };
        let filled = fill(&mut self.replay, &mut block);
        block.truncate(filled.count);
        match filled.end {
            End::Full => Ok(block),
            End::Ended if self.sized => Err(Fault::Shorter),
            End::Ended => Ok(block),
            End::Failed => Err(Fault::Unreadable {
                byte: self.byte.saturating_add(filled.count as u64),
            }),
        }
    }

    /// Gives the next bits in an order, in the place of those in the list, which has room for a block; none where all were given.
    pub fn next(&mut self, order: BitOrder, into: &mut Packed) -> Result<(), Fault>
        requires room { 524288 ≤ into.old.capacity }
        ensures capacity { into.new.capacity ≡ into.old.capacity }
        ensures given { OnOk result (Gives (bits_left R.remaining order self.old) (bits_left R.remaining order self.new) into.new.bits) }
        ensures last { OnOk result (into.new.bits ≡ [] → HasNone (bits_left R.remaining order self.new)) }
        ensures whole { OnOk result (into.new.bits ≡ [] → self.old.sized ≡ true → self.new.left ≡ 0) }
    {
        into.clear();
        let block = self.read_block()?;
        let Ok(bits) = read(self.alloc, &block, order) else {
            return Err(Fault::OutOfMemory);
        };
        let count = append_wanted(&bits, self.skip, self.left, into);
        self.byte = self.byte.saturating_add(block.len() as u64);
        self.skip = 0;
        self.left -= count as u64;
        Ok(())
    }
}
