//! What came in each cell of a picture of a line, whose length isn't known before its end.
//! It knows places, states and codes, and no event and no node.
//!
//! There are 4,096 fine cells at most, each of a power of two of bits; where they run out, each two neighbours become one. At the
//! end they fall into the cells of the picture.
#![tactic(auto)]

mod cell;
mod cells;
mod rows;

pub use cell::{Cell, Code};
pub use cells::{CELLS, Cells};
pub use rows::{DrawnCode, block_cells, code_cells, far_cells, state_cells};
