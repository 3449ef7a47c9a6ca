//! Tests of the look at a recording, by what its crate makes public.
//! It knows lines of chains in memory, and no crate stands on it.
#![tactic(auto)]

#[cfg(test)]
mod lines;
#[cfg(test)]
mod looking;
