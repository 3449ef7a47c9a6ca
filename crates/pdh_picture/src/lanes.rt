//! What is drawn of a node beside what is reported of it.

use crate::grid::CELLS;
use pdh_report_text::Code;

/// What is drawn of a node. States and counts are those of the cells from left to right.
#[derive(Clone, Copy)]
pub struct Lanes<'a> {
    /// How many bits of the recording came before it was first aligned, where it wasn't out of alignment then; else 0.
    pub early_bits: u64,
    /// Cells in which it was out of alignment.
    pub out: &'a [bool; CELLS],
    /// Cells with AIS.
    pub ais: &'a [bool; CELLS],
    /// Cells with a remote alarm.
    pub alarm: &'a [bool; CELLS],
    /// Errored blocks in each cell.
    pub near: &'a [u64; CELLS],
    /// Errors in each cell that the far end told.
    pub far: &'a [u64; CELLS],
    /// The codes of the far end alarm and control channel in their order: at least the first in each cell that has one.
    pub codes: &'a [Code],
}
