//! Bytes that were read ahead of a reader.

ghost use Rattle.std.specs.Prelude.{◌≡◌, ◌==◌, ◌||◌, ◌+◌, ◌-◌, ◌++◌, ◌<◌, ◌≤◌, true, false, [], length, min, take, drop, replicate, IfSome, OnOk};

use crate::part::passed_over;
use std::alloc::{AllocError, Global};

// How many copies of a byte are counted at most: their bits are too.
const MOST_COPIES: u64 = u64::MAX / 8;

/// Bytes that were read ahead: copies of a byte, of which only the number is kept, and then bytes that are kept, of which so many
/// were given again.
#[derive(Drop)]
pub(crate) struct Ahead {
    value: u8,
    run: u64,
    bytes: Vec<u8>,
    given: usize,
    ghost within: { given ≤ length bytes.items },
    // all bits of the copies are alike
    ghost alike: { (value == 0 || value == 255) ≡ true },
    ghost counted: { run ≤ 2305843009213693951 },
}

// Copies as many bytes as there are and as fit, and answers how many.
fn copy_bytes(from: &[u8], into: &mut [u8]) -> usize
    ensures count { result ≡ min (length from.now) (length into.old) }
    ensures copied { take result into.new ≡ take result from.now }
{
    let count = from.len().min(into.len());
    into[..count].copy_from_slice(&from[..count]);
    count
}

// Fills the first bytes of memory with a value, at most so many, and answers how many.
fn fill_bytes(value: u8, most: u64, into: &mut [u8]) -> usize
    ensures count { result ≡ min most (length into.old) }
    ensures filled { take result into.new ≡ replicate result value }
{
    let count = most.min(into.len() as u64) as usize;
    into[..count].fill(value);
    count
}

impl Ahead {
    ghost use Rattle.pdh_recording.specs.Given.{kept, kept_bytes};

    /// Nothing was read ahead yet.
    pub(crate) fn new(alloc: Global) -> Ahead
        ensures { kept_bytes result ≡ [] }
    {
        Ahead {
            value: 0,
            run: 0,
            bytes: Vec::new(alloc),
            given: 0,
        }
    }

    /// How many copies of a byte come first.
    pub(crate) fn passed(&self) -> u64
        ensures is { result ≡ self.now.run }
        ensures few { self.now.run ≤ 2305843009213693951 }
    {
        self.run
    }

    /// The bytes that come behind them.
    pub(crate) fn kept(&self) -> &[u8]
        ensures { result.now ≡ kept self.now }
    {
        &self.bytes[self.given..]
    }

    /// The byte of which all consist, 0 or 255, if they are no more than its copies and one that is kept.
    pub(crate) fn constant(&self) -> Option<u8>
        ensures { IfSome result (λ byte. kept_bytes self.now ≡ replicate (self.now.run + 1) byte) }
    {
        let [byte] = self.kept() else {
            return None;
        };
        let alike = self.run == 0 || self.value == *byte;
        (alike && (*byte == 0 || *byte == 255)).then_some(*byte)
    }

    // Gives copies of a byte, and answers how many.
    fn give_run(&mut self, buffer: &mut [u8]) -> usize
        ensures count { result ≡ min self.old.run (length buffer.old) }
        ensures given { kept_bytes self.old ≡ take result buffer.new ++ kept_bytes self.new }
    {
        let count = fill_bytes(self.value, self.run, buffer);
        self.run -= count as u64;
        count
    }

    // Gives bytes that were kept, and answers how many.
    fn give_kept(&mut self, buffer: &mut [u8]) -> usize
        requires { self.old.run ≡ 0 }
        ensures count { result ≡ min (length self.old.bytes.items - self.old.given) (length buffer.old) }
        ensures given { kept_bytes self.old ≡ take result buffer.new ++ kept_bytes self.new }
    {
        let count = copy_bytes(self.kept(), buffer);
        self.given += count;
        count
    }

    /// Gives the next bytes again, as many as there are and as fit or fewer, and answers how many; none where nothing is left.
    pub(crate) fn give(&mut self, buffer: &mut [u8]) -> usize
        ensures few { result ≤ length buffer.new }
        ensures given { kept_bytes self.old ≡ take result buffer.new ++ kept_bytes self.new }
        ensures none { result ≡ 0 → 0 < length buffer.old → kept_bytes self.old ≡ [] }
    {
        if self.run > 0 {
            return self.give_run(buffer);
        }
        self.give_kept(buffer)
    }

    /// Keeps more bytes, which come last.
    pub(crate) fn append(&mut self, more: &[u8]) -> Result<(), AllocError>
        ensures kept { OnOk result (kept self.new ≡ kept self.old ++ more.now) }
        ensures value { self.new.value ≡ self.old.value }
        ensures run { self.new.run ≡ self.old.run }
    {
        self.bytes.extend_from_slice(more)
    }

    /// Keeps of equal bytes at the beginning only the number, but of the last, and tells whether there were any; before anything is
    /// given again.
    pub(crate) fn pass_over(&mut self) -> bool
        ensures same { kept_bytes self.new ≡ kept_bytes self.old }
        ensures fewer { result ≡ true → self.old.run < self.new.run }
        ensures stays { result ≡ false → self.new ≡ self.old }
    {
        let over = passed_over(&self.bytes);
        if over == 0 || self.given > 0 {
            return false;
        }
        let first = self.bytes[0];
        if self.run > 0 && self.value != first {
            return false;
        }
        let run = self.run.saturating_add(over as u64);
        if run > MOST_COPIES {
            return false;
        }
        self.value = first;
        self.run = run;
        drop(self.bytes.drain(..over));
        true
    }
}
