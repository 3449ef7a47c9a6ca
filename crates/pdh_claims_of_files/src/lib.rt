//! What callers may rely on of files, outputs and lists of bits, in memory and real, each by its public contract alone:
//! a wrong body that its contract would pass breaks the claim of that name here.
#![tactic(auto)]

pub mod blocks;
pub mod edge;
pub mod folder;
pub mod nowhere;
