//! How many events of each kind there are, counted as they come.
//! It knows kinds, and no place, no node and no line.
#![tactic(auto)]

mod counts;

pub use counts::Counts;
