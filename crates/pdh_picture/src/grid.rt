//! The cells of a picture, and the bits that they stand for.

ghost use Rattle.std.specs.Prelude.{◌≡◌, ◌+◌, ◌<◌, ◌≤◌, min};
ghost use Rattle.pdh_picture.specs.Cells.{IsShift, cell_of, cells_of_first, fine_cells, start_of};

/// How many cells a row has.
pub const CELLS: usize = 430;

// How many fine cells a recording has at most.
const FINE_CELLS: u64 = 4096;

// The least power of two of bits that a fine cell can have, as its exponent.
fn shift_of(bits: u64) -> u32
    ensures shift { IsShift bits result }
    ensures small { result ≤ 52 }
{
    bits.div_ceil(FINE_CELLS).next_power_of_two().ilog2()
}

/// How the bits of a recording lie in the cells of a picture. Fine cells have the least power of two of bits with which 4,096
/// of them suffice; they are drawn in the cells of the picture.
#[derive(Clone, Copy)]
pub struct Grid {
    /// The bits of the recording.
    pub bits: u64,
    /// Its first bit, counted from the beginning of the file.
    pub from: u64,
    /// Bits in a second.
    pub rate: u64,
    /// A fine cell has 2 to this of bits.
    pub shift: u32,
    // fine cells
    count: u64,
    ghost some_rate: { 0 < rate },
    ghost least: { IsShift bits shift },
    ghost small: { shift ≤ 52 },
    ghost counted: { count ≡ fine_cells bits shift },
}

impl Grid {
    /// The cells of a recording of so many bits from one on, at a rate in bits a second.
    pub fn new(bits: u64, from: u64, rate: u64) -> Grid
        requires { 0 < rate }
        ensures bits { result.bits ≡ bits }
        ensures from { result.from ≡ from }
        ensures rate { result.rate ≡ rate }
    {
        let shift = shift_of(bits);
        let count = bits.div_ceil(1 << shift).max(1);
        Grid {
            bits,
            from,
            rate,
            shift,
            count,
        }
    }

    /// The cell in which a bit is drawn, counted from the first bit that was read; of a bit behind the last, the last one's.
    pub fn cell(&self, bit: u64) -> usize
        ensures cell { result ≡ cell_of self.now.bits self.now.shift bit }
        ensures within { result < CELLS }
    {
        let fine = (bit >> self.shift).min(self.count - 1) as usize;
        fine * CELLS / self.count as usize
    }

    /// How many cells there are up to the last that holds one of the first bits that were read.
    pub fn cells_of_first(&self, bits: u64) -> usize
        ensures cells { result ≡ cells_of_first self.now.bits self.now.shift bits }
        ensures within { result ≤ CELLS }
    {
        match bits.checked_sub(1) {
            Some(last) => self.cell(last) + 1,
            None => 0,
        }
    }

    /// The bit of the file with which a cell begins; the last cell ends where one behind it begins.
    pub fn start(&self, cell: usize) -> u64
        requires { cell ≤ CELLS }
        ensures { result ≡ min (self.now.from + start_of self.now.bits self.now.shift cell) u64.MAX }
    {
        let fine = (cell as u64 * self.count).div_ceil(CELLS as u64);
        let bit = fine.saturating_mul(1 << self.shift).min(self.bits);
        self.from.saturating_add(bit)
    }
}
