//! Tests of linked terminals, by what `pdh_duplex` makes public.
//! It knows no command, and no crate stands on it.
#![tactic(auto)]

#[cfg(test)]
mod duplex;
