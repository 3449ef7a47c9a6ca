//! Of the cells of a picture.

ghost use Rattle.std.specs.Prelude.{◌≡◌, ◌+◌, ◌^◌, ◌<◌, ◌≤◌, get_or, slice_get, IfOk, IfSome};
ghost use Rattle.pdh_cells.specs.Contents.{blank};

use pdh_cells::{CELLS, Cell, Cells, Code, DrawnCode, code_cells};
use std::alloc::{AllocError, Global};

/// The next code behind one in the first cell is drawn in the sixth cell at the earliest.
pub fn codes_of_neighbours_drawn(
    alloc: Global,
    cells: &[Cell; CELLS],
    code: Code,
) -> Result<Vec<DrawnCode>, AllocError>
    requires { (get_or cells.now 0 blank).code ≡ Some code }
    ensures { IfOk result (λ codes. IfSome (slice_get codes.items 1) (λ drawn. 5 ≤ drawn.cell)) }
{
    code_cells(alloc, cells)
}

/// A line of two bits fills both halves of its picture.
pub fn drawn_as_if_all_were_filled(alloc: Global) -> Result<[Cell; CELLS], AllocError>
    ensures { IfOk result (λ cells. (get_or cells 215 blank).near ≡ 1) }
{
    let mut cells = Cells::open(alloc)?;
    cells.errored(1);
    Ok(cells.draw(2))
}

/// The errored blocks of two cells are added.
pub fn greater_count_kept(one: Cell, next: Cell) -> Cell
    requires { one.near + next.near < 2 ^ 64 }
    ensures { result.near ≡ one.near + next.near }
{
    one.join(next)
}

/// A line's last bit is in one of its fine cells.
pub fn last_fine_cell_left_out(alloc: Global) -> Result<[Cell; CELLS], AllocError>
    ensures { IfOk result (λ cells. (get_or cells 0 blank).near ≡ 1) }
{
    let mut cells = Cells::open(alloc)?;
    cells.errored(0);
    Ok(cells.draw(1))
}

/// Of the codes of two cells the first is kept.
pub fn later_code_kept(first: Code, later: Code) -> Cell
    ensures { result.code ≡ Some first }
{
    Cell::of_code(first).join(Cell::of_code(later))
}

/// Where fine cells are joined in pairs, each goes into one pair.
pub fn neighbours_overlap(alloc: Global) -> Result<[Cell; CELLS], AllocError>
    ensures { IfOk result (λ cells. (get_or cells 0 blank).near ≡ 1) }
{
    let mut cells = Cells::open(alloc)?;
    cells.errored(2);
    Ok(cells.draw(4097))
}
