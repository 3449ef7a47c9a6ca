//! The alignment machine: it finds frame alignment in a line, and loses it, bit by bit or by many bits at
//! once.
//! It knows the line of one node, and no drain, no event and no other node.
#![tactic(auto)]

mod aligner;
mod search;
mod signals;
mod starts;
mod step;

pub use aligner::Aligner;
pub use step::Step;
