//! The nodes below the top of a chain that stand in a line: those whose received lines are lines of their shape, below nodes
//! that stand.
//! It knows the line of a chain, and no file and no event.
#![tactic(auto)]

mod lower;
mod tally;

pub use lower::find_lower;
pub use tally::{Lower, Tally};
