//! What callers may rely on of demultiplexers and of far stores, each by its public contract alone: a wrong body that its
//! contract would pass breaks the claim of that name here.
#![tactic(auto)]

pub mod desync;
pub mod rx;
