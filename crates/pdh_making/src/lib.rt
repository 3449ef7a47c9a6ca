//! The commands that make lines and schedules: `mux` and `muxslip` make a line by a schedule, `clock check` judges a schedule,
//! `clock make` makes one, and `drill` makes a line to test a chain with itself. None reads a recorded line.
//! They know no words: `run` hands them what the words say, and the shelf.
#![tactic(auto)]

pub mod clock;
mod drilling;
mod muxing;
mod schedule;
mod slipping;

pub use drilling::drill;
pub use muxing::Mux;
pub use slipping::MuxSlip;
