//! The lines that words name, chains and framed streams: what is known of their levels, and what receives them.
//! It knows words and chains, and no program.
#![tactic(auto)]

mod levels;
mod lines;

pub use levels::{LevelFacts, level_of, top_of};
pub use lines::{Wanted, follow_named};
