//! The rows of the picture, one for each node.

ghost use Rattle.std.specs.Prelude.{◌<◌};

use pdh_cells::{CELLS, Cell};
use pdh_health::NodeHealth;
use pdh_picture::Lanes;
use pdh_report_text::Code;
use std::alloc::{AllocError, Global};

/// The cells of a node's row of the picture, one array for each lane.
#[derive(Drop)]
pub(crate) struct Row {
    early_bits: u64,
    out: [bool; CELLS],
    ais: [bool; CELLS],
    alarm: [bool; CELLS],
    near: [u64; CELLS],
    far: [u64; CELLS],
    codes: Vec<Code>,
}

impl Row {
    // A row in which nothing came.
    fn empty(alloc: Global, early_bits: u64) -> Row {
        Row {
            early_bits,
            out: [false; CELLS],
            ais: [false; CELLS],
            alarm: [false; CELLS],
            near: [0; CELLS],
            far: [0; CELLS],
            codes: Vec::new(alloc),
        }
    }

    // Takes over what came in a cell.
    fn set(&mut self, index: usize, cell: &Cell, from: u64) -> Result<(), AllocError>
        requires { index < 430 }
    {
        self.out[index] = cell.out;
        self.ais[index] = cell.ais;
        self.alarm[index] = cell.alarm;
        self.near[index] = cell.near;
        self.far[index] = cell.far;
        if let Some(code) = cell.code {
            self.codes.push(Code {
                code: code.code,
                place: from.saturating_add(code.place),
            })?;
        }
        Ok(())
    }

    /// The row of a node of a line whose first bit is this one of the file; or the refusal of memory.
    pub(crate) fn of(alloc: Global, health: &NodeHealth, from: u64) -> Result<Row, AllocError> {
        let mut row = Row::empty(alloc, health.early_bits);
        for index in 0..CELLS {
            row.set(index, &health.course.cells[index], from)?;
        }
        Ok(row)
    }

    /// It, as it is drawn.
    pub(crate) fn lanes(&self) -> Lanes<'_> {
        Lanes {
            early_bits: self.early_bits,
            out: &self.out,
            ais: &self.ais,
            alarm: &self.alarm,
            near: &self.near,
            far: &self.far,
            codes: &self.codes,
        }
    }
}
