//! The command of two linked terminals: `duplex` reads the scripts that disturb their lines, and tells what both terminals count.
//! It knows no words: `run` hands it what the words say, and the shelf.
#![tactic(auto)]

mod duplexing;

pub use duplexing::duplex;
