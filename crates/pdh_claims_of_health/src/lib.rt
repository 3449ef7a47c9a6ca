//! What callers may rely on of what happened on a line, each by its public contract alone: a wrong body that its contract
//! would pass breaks the claim of that name here.
#![tactic(auto)]

pub mod cells;
pub mod event_counts;
pub mod health;
pub mod seconds;
pub mod spans;
pub mod timeline;
pub mod track;
