//! The drill, in which a chain is tested with itself from one number. It knows no file: all that is sent and received stands
//! in memory.
#![tactic(auto)]

mod drilling;
mod laws;
mod leaves;
mod receiving;
mod report;
mod sending;

pub use drilling::drill;
pub use laws::drills_are_in_time;
pub use report::Drill;
