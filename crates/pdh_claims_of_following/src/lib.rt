//! What callers may rely on of the lines that words name, each by its public contract alone: a wrong body that its contract would
//! pass breaks the claim of that name here.
#![tactic(auto)]

pub mod named_lines;
