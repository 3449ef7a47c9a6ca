//! The words of the command line: which words are a command, and which one.
//! It tells what the words ask for, and does nothing of it: it touches no file.
#![tactic(auto)]

mod commands;

pub use commands::{Command, command_for};
