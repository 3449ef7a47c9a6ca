//! The elastic store of a tributary: bits that wait between their arrival and the line.
//! It knows one tributary alone: neither where its bits come from nor where they go.
#![tactic(auto)]

pub mod laws;
mod store;

pub use store::{Overflow, Store, Underflow};
