//! Tests of frame shapes, their words, runs and stores, by what the crates make public.
//! It knows no command, and no crate stands on it.
#![tactic(auto)]

#[cfg(test)]
mod cbit;
#[cfg(test)]
mod ds;
#[cfg(test)]
mod e1;
#[cfg(test)]
mod runs;
#[cfg(test)]
mod store;
