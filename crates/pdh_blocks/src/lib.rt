//! A port over a shelf, which reads and writes whole blocks.
//! It knows files by the calls of a shelf and the names that it is given alone, and no frame.
#![tactic(auto)]

mod blocks;
mod feeding;
mod leaf_block;
mod opening;
mod output_block;
mod putting;
mod shelf_port;
mod source;

pub use shelf_port::{NoPort, ShelfPort};
pub use source::Source;
