//! What callers may rely on of a chain, whose line is made, taken apart and smoothed, each by its public contract alone: a wrong
//! body that its contract would pass breaks the claim of that name here.
#![tactic(auto)]

pub mod chain;
pub mod smoothing;
