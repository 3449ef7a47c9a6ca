//! The fine cells of a line, and the cells of its picture.

ghost use Rattle.std.specs.Prelude.{◌≡◌, ◌+◌, ◌-◌, ◌*◌, ◌^◌, ◌<◌, ◌≤◌, ℕ, suc, max, length, get_or, IfOk};
ghost use Rattle.pdh_cells.specs.Lanes.{Lanes, no_marks, with_time, with_block, with_far, with_code};
ghost use Rattle.pdh_cells.specs.Contents.{blank, joined};
ghost use Rattle.pdh_cells.specs.Pictures.{IsShift, ArePicture};

use crate::{Cell, Code};
use pdh_timeline::State;
use std::alloc::{AllocError, Global};

/// How many cells a row of a picture has.
pub const CELLS: usize = 430;

// How many fine cells there are.
const FINE_CELLS: usize = 4096;

// The least power of two with which the fine cells hold all bits up to one.
fn shift_for(last: u64) -> u32
    ensures shift { IsShift (last + 1) result }
    ensures small { result ≤ 52 }
{
    let mut shift = 0;
    while last >> shift >= FINE_CELLS as u64 {
        shift += 1;
    }
    shift
}

/// The fine cells of a line. Only `open` takes memory.
#[derive(Drop)]
pub struct Cells {
    // a fine cell has 2 to this of bits
    shift: u32,
    cells: Vec<Cell>,
    // how many of the cells are in use, the first ones; nothing has come in those behind them
    used: usize,
    ghost small: { shift ≤ 52 },
    ghost count: { length cells.items ≡ 4096 },
    ghost within: { used ≤ 4096 },
    ghost unused: { (cell : ℕ) → used ≤ cell → get_or cells.items cell blank ≡ blank },
}

impl Cells {
    ghost use Rattle.pdh_cells.specs.Standing.{StandsFor, Puts};

    /// Nothing has come.
    pub fn open(alloc: Global) -> Result<Cells, AllocError>
        ensures { IfOk result (λ cells. StandsFor cells no_marks 0) }
    {
        let cells = vec![in alloc; Cell::blank(); FINE_CELLS]?;
        Ok(Cells {
            shift: 0,
            cells,
            used: 0,
        })
    }

    // What two neighbours hold, counted in pairs; behind those in use there is nothing.
    fn pair(&self, index: usize) -> Cell
        ensures { result ≡ joined (get_or self.now.cells.items (2 * index) blank) (get_or self.now.cells.items (2 * index + 1) blank) }
    {
        if index >= self.used.div_ceil(2) {
            return Cell::blank();
        }
        self.cells[2 * index].join(self.cells[2 * index + 1])
    }

    // Makes one of each two neighbours that are in use.
    fn join_pairs(&mut self)
        ensures each { (cell : ℕ) → get_or self.new.cells.items cell blank
            ≡ joined (get_or self.old.cells.items (2 * cell) blank) (get_or self.old.cells.items (2 * cell + 1) blank) }
        ensures shift { self.new.shift ≡ self.old.shift }
    {
        for index in 0..self.used {
            let joined = self.pair(index);
            self.cells[index] = joined;
        }
        self.used = self.used.div_ceil(2);
    }

    // Makes the fine cells so wide that a bit is in one of them.
    fn widen_to(&mut self, last: u64)
        ensures stands { (lanes : Lanes) (end : ℕ) → StandsFor self.old lanes end → StandsFor self.new lanes (max end (suc last)) }
        ensures enough { last < 4096 * 2 ^ self.new.shift }
    {
        let shift = shift_for(last);
        while self.shift < shift {
            self.join_pairs();
            self.shift += 1;
        }
    }

    // Adds to what the cells of the bits from one to another hold.
    fn put(&mut self, from: u64, last: u64, more: Cell)
        requires order { from ≤ last }
        requires enough { last < 4096 * 2 ^ self.old.shift }
        ensures each { Puts self.old self.new from last more }
        ensures shift { self.new.shift ≡ self.old.shift }
    {
        let first = (from >> self.shift) as usize;
        let end = (last >> self.shift) as usize + 1;
        self.used = self.used.max(end);
        for index in first..end {
            let cell = self.cells[index].join(more);
            self.cells[index] = cell;
        }
    }

    /// A state stood from a bit up to another, without the latter; it stood at the first of them at least.
    pub fn stood(&mut self, state: State, from: u64, to: u64)
        ensures { (lanes : Lanes) (end now : ℕ) → StandsFor self.old lanes end → end ≤ now → max from (to - 1) < now
            → StandsFor self.new (with_time state (record { from = from; to = to }) lanes) now }
    {
        let last = from.max(to.saturating_sub(1));
        self.widen_to(last);
        self.put(from, last, Cell::of_state(state));
    }

    /// A block turns out to be errored at a bit.
    pub fn errored(&mut self, place: u64)
        ensures { (lanes : Lanes) (end : ℕ) → StandsFor self.old lanes end → end ≤ place + 1
            → StandsFor self.new (with_block place lanes) (place + 1) }
    {
        self.widen_to(place);
        self.put(place, place, Cell::of_block());
    }

    /// The far end tells an error at a bit.
    pub fn told(&mut self, place: u64)
        ensures { (lanes : Lanes) (end : ℕ) → StandsFor self.old lanes end → end ≤ place + 1
            → StandsFor self.new (with_far place lanes) (place + 1) }
    {
        self.widen_to(place);
        self.put(place, place, Cell::of_far());
    }

    /// A code comes.
    pub fn coded(&mut self, code: Code)
        ensures { (lanes : Lanes) (end : ℕ) → StandsFor self.old lanes end → end ≤ code.place + 1
            → StandsFor self.new (with_code code lanes) (code.place + 1) }
    {
        self.widen_to(code.place);
        self.put(code.place, code.place, Cell::of_code(code));
    }

    /// What the cells of the picture of a line of so many bits hold, at none of whose bits more comes.
    pub fn draw(&mut self, bits: u64) -> [Cell; CELLS]
        requires { 0 < bits }
        ensures { (lanes : Lanes) (end : ℕ) → StandsFor self.old lanes end → end ≤ bits → ArePicture bits lanes result }
    {
        self.widen_to(bits - 1);
        let count = ((bits - 1) >> self.shift) as usize + 1;
        let mut drawn = [Cell::blank(); CELLS];
        for fine in 0..count.min(self.used) {
            let cell = fine * CELLS / count;
            let joined = drawn[cell].join(self.cells[fine]);
            drawn[cell] = joined;
        }
        drawn
    }
}
