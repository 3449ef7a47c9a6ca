//! What is drawn of the cells of a picture.

ghost use Rattle.std.specs.Prelude.{◌≡◌, ◌<◌, ℕ, suc, false, List, ◌∷◌, ◌++◌, get_or, IfOk};
ghost use Rattle.pdh_cells.specs.declared.cell.Cell.{Cell};
ghost use Rattle.pdh_cells.specs.Contents.{blank};
ghost use Rattle.pdh_cells.specs.Rows.{shows_state, codes_drawn};

use crate::{CELLS, Cell, Code};
use pdh_timeline::State;
use std::alloc::{AllocError, Global};

// How many cells a code takes.
const CODE_CELLS: usize = 5;

/// A code that is drawn, and the cell in which it is.
#[derive(Clone, Copy, Debug, PartialEq, Eq)]
pub struct DrawnCode {
    /// The cell.
    pub cell: u16,
    /// The code.
    pub code: Code,
}

// Whether a cell shows a state.
fn shows(cell: Cell, state: State) -> bool
    ensures { result ≡ shows_state state cell }
{
    match state {
        State::Out => cell.out,
        State::Ais => cell.ais,
        State::Alarm => cell.alarm,
    }
}

/// The cells that show a state.
pub fn state_cells(cells: &[Cell; CELLS], state: State) -> [bool; CELLS]
    ensures { (cell : ℕ) → cell < 430 → get_or result cell false ≡ shows_state state (get_or cells.now cell blank) }
{
    let mut flags = [false; CELLS];
    for index in 0..CELLS {
        let flag = shows(cells[index], state);
        flags[index] = flag;
    }
    flags
}

/// The errored blocks of each cell.
pub fn block_cells(cells: &[Cell; CELLS]) -> [u64; CELLS]
    ensures { (cell : ℕ) → cell < 430 → get_or result cell 0 ≡ (get_or cells.now cell blank).near }
{
    let mut counts = [0u64; CELLS];
    for index in 0..CELLS {
        counts[index] = cells[index].near;
    }
    counts
}

/// The errors of each cell that the far end told.
pub fn far_cells(cells: &[Cell; CELLS]) -> [u64; CELLS]
    ensures { (cell : ℕ) → cell < 430 → get_or result cell 0 ≡ (get_or cells.now cell blank).far }
{
    let mut counts = [0u64; CELLS];
    for index in 0..CELLS {
        counts[index] = cells[index].far;
    }
    counts
}

// Adds the code of a cell, if it has one and isn't taken, and answers which cells are taken then.
fn draw_code(
    codes: &mut Vec<DrawnCode>,
    cell: Cell,
    index: usize,
    free: usize,
) -> Result<usize, AllocError>
    requires { index < 430 }
    ensures { IfOk result (λ next. (cells : List Cell) → codes.new.items ++ codes_drawn (suc index) next cells ≡ codes.old.items ++ codes_drawn index free (cell ∷ cells)) }
{
    let Some(code) = cell.code else {
        return Ok(free);
    };
    if index < free {
        return Ok(free);
    }
    codes.push(DrawnCode {
        cell: index as u16,
        code,
    })?;
    Ok(index + CODE_CELLS)
}

/// The codes that are drawn: the first code of a cell, but where the one before it is less than five cells away.
pub fn code_cells(alloc: Global, cells: &[Cell; CELLS]) -> Result<Vec<DrawnCode>, AllocError>
    ensures { IfOk result (λ codes. codes.items ≡ codes_drawn 0 0 cells.now) }
{
    let mut codes = Vec::new(alloc);
    let mut free = 0;
    for index in 0..CELLS {
        free = draw_code(&mut codes, cells[index], index, free)?;
    }
    Ok(codes)
}
