//! What callers may rely on of bits in lists, words, rings and arrays, and of bits in turn, each by its public contract alone:
//! a wrong body that its contract would pass breaks the claim of that name here.
#![tactic(auto)]

pub mod bits;
pub mod interleaving;
pub mod packed;
