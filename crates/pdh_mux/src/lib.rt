//! `mux` and `mux_slips` of each chain.
//! It knows ports, and no file and no command.
#![tactic(auto)]

mod muxing;

pub use muxing::{mux, mux_slips};
