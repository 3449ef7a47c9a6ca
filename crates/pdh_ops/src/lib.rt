//! The top call: it does all that the program does.
//! It asks the system for nothing but memory: it is handed a shelf for the files, a sink for the
//! text, and the monitors.
#![tactic(auto)]

mod commands;
pub mod laws;
mod never_failing;
mod program;

pub use never_failing::run_never_failing;
pub use program::{Ran, run};
