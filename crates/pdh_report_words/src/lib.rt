//! The words of the command line of `pdhreport`: what they ask for, and why they ask for nothing.
//! It knows options and names, and touches no file.
#![tactic(auto)]

mod command;
mod names;
mod refusal;
mod request;

pub use command::read_words;
pub use names::Named;
pub use refusal::Refusal;
pub use request::{Outputs, Request};

/// The version of the program.
pub const VERSION: &str = "0.1.0";
