//! Tests of texts, monitors and the events of a line, by what the crates make public.
//! It knows no command, and no crate stands on it.
#![tactic(auto)]

#[cfg(test)]
mod events;
#[cfg(test)]
mod text;
#[cfg(test)]
mod watch;
