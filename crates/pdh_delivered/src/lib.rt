//! The delivered frames of a line, shown one by one, and two things that they tell: whether a DS3 line has C-bit parity, and
//! whether all frames of a line are alike.
//! It knows the line of one node, and no chain and no file.
#![tactic(auto)]

mod alike;
mod c_bits;
mod frames;
mod recent;
mod visitor;

pub use alike::are_alike;
pub use c_bits::{CBits, count_c_bits};
pub use frames::each_frame;
pub use visitor::Visitor;
