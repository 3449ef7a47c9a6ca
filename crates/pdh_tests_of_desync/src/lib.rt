//! Tests of desynchronisers, alone and below a demultiplexer, by what their crates make public.
//! It knows no command, and no crate stands on it.
#![tactic(auto)]

#[cfg(test)]
mod desync;
