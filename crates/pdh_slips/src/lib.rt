//! Slips, and logs that are told of them.
//! It knows what a slip is and where it stands, and not what in a store brings it about.
#![tactic(auto)]

mod kept;
mod log;
mod slip;

pub use kept::KeptSlips;
pub use log::{NoSlips, SlipLog};
pub use slip::Slip;
