//! A line of one multiplexer taken apart through far stores, with the schedule that would make it again.
//! It knows the lists of a port, and no file and no command.
#![tactic(auto)]

mod by_chain;
mod receiving;
mod rows;
mod split_port;

pub use by_chain::smooth;
pub use receiving::Smoothed;
