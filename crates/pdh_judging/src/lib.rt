//! How many frames of a line its alignment judges, and how many of them are right: by this it is told of what shape a
//! recorded line is.
//! It knows the line of one node, and no chain and no file.
#![tactic(auto)]

mod judged;
mod judging;

pub use judged::Judged;
pub use judging::{judge, judged_after};
