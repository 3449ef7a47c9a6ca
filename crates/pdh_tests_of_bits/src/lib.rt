//! Tests of bits, packed words and interleaving, by what the crates make public.
//! It knows no command, and no crate stands on it.
#![tactic(auto)]

#[cfg(test)]
mod bits;
#[cfg(test)]
mod interleaving;
#[cfg(test)]
mod packed;
