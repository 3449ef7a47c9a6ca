//! Tests of aligners and of their search, by what the crates make public.
//! It knows no command, and no crate stands on it.
#![tactic(auto)]

#[cfg(test)]
mod align;
#[cfg(test)]
mod phases;
