//! Tests of demultiplexers, by what `pdh_rx` makes public.
//! It knows no command, and no crate stands on it.
#![tactic(auto)]

#[cfg(test)]
mod rx;
