//! A search for frame alignment that reads each bit once, many at a time: how often in a row the
//! alignment signal stands at each phase of a frame.
//! It knows one search alone: it keeps no frame and finds no loss.
#![tactic(auto)]

pub mod laws;
mod phases;
mod planes;
mod signal;

pub use phases::Phases;
pub use signal::signal_number;
