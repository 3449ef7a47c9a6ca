//! What callers may rely on of words, of answers and of commands, each by its public contract alone: a wrong body that its
//! contract would pass breaks the claim of that name here.
#![tactic(auto)]

pub mod answers;
pub mod making;
pub mod runner;
pub mod streams;
pub mod words;
