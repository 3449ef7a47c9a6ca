//! What callers may rely on of what a recording is, each by its public contract alone: a wrong body that its contract would
//! pass breaks the claim of that name here.
#![tactic(auto)]

pub mod candidates;
pub mod delivered;
pub mod looking;
pub mod readings;
pub mod standing;
