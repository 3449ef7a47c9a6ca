//! Chains of nested multiplexers: definitions of the lines that they send, of the events of their stores, of what comes
//! back of a line and of how late it is, and of what slips of stores do to both. They stand in `specs/`, and their laws for all
//! chains in `laws` and `slip_laws`.
//! They are over the shapes of a chain, from the top down, and know no machine and no chain by its
//! name.
#![tactic(auto)]

pub mod laws;
pub mod slip_laws;
