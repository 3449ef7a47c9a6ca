//! The picture of a report: a row for each node over one axis of time, as SVG.
//! It knows reports and cells, and no event and no file. Every number in it is a whole one, and nothing in it depends on when it
//! is drawn.
#![tactic(auto)]

mod frame;
mod grid;
mod heading;
mod lanes;
mod names;
mod picture;
mod remark;
mod row;
mod runs;
mod scale;
mod sizes;
mod ticks;

pub use grid::{CELLS, Grid};
pub use lanes::Lanes;
pub use picture::draw;
