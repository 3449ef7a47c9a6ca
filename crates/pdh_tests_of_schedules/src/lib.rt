//! Tests of schedules, by what their crates make public.
//! It knows no bit of a line, and no crate stands on it.
#![tactic(auto)]

#[cfg(test)]
mod clock;
