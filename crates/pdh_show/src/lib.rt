//! The text that shows one frame of the top of a chain.
//! It knows a line as list 0 of a feed, and no file, no schedule and no search for alignment.
#![tactic(auto)]

mod by_chain;
mod frame;
mod lines;
mod reading;
mod signal;
mod stop;
mod text;

pub use by_chain::show;
pub use stop::ShowStop;
