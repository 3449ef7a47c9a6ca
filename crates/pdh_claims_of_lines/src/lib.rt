//! What callers may rely on of scripts, inspections, shown frames, patterns, drills and sessions, each by its public contract
//! alone: a wrong body that its contract would pass breaks the claim of that name here.
#![tactic(auto)]

pub mod duplex;
pub mod inspect;
pub mod lab;
pub mod patterns;
pub mod script;
pub mod show;
