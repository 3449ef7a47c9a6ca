//! Tests of files and ports, in memory and of a real folder, by what the crates make public.
//! It knows no command, and no crate stands on it.
#![tactic(auto)]

#[cfg(test)]
mod edge;
#[cfg(test)]
mod edge_ports;
#[cfg(test)]
mod folder;
