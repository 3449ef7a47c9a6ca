//! What callers may rely on of the search, the tracking and the judging of a received line, each by its public contract
//! alone: a wrong body that its contract would pass breaks the claim of that name here.
#![tactic(auto)]

pub mod align;
pub mod judging;
pub mod phases;
