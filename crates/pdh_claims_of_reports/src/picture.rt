//! The cells of a picture.

ghost use Rattle.std.specs.Prelude.{◌≡◌, ◌*◌, ◌^◌, ◌<◌, ◌≤◌};

use pdh_picture::Grid;

/// The first bit of a recording lies in the first cell alone.
pub fn cell_behind_the_first_bits(grid: &Grid) -> usize
    ensures { result ≡ 1 }
{
    grid.cells_of_first(1)
}

/// A bit behind the last is drawn in one of the 430 cells.
pub fn cell_past_the_last(grid: &Grid, bit: u64) -> usize
    requires { grid.now.bits ≤ bit }
    ensures { result < 430 }
{
    grid.cell(bit)
}

/// No more than 4096 fine cells hold all bits of a recording.
pub fn more_fine_cells_than_fit(bits: u64, from: u64, rate: u64) -> Grid
    requires { 0 < rate }
    ensures { bits ≤ 4096 * 2 ^ result.shift }
{
    Grid::new(bits, from, rate)
}
