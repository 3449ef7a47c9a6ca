//! Errored, severely errored and unavailable seconds, counted as they come.
//! It knows what each second showed, and no line, no node and no event.
#![tactic(auto)]

mod second;
mod seconds;
mod tally;

pub use second::Second;
pub use seconds::Seconds;
pub use tally::Tally;
