//! Lines after their last line error: how the tracking of a received line comes back to the line that was sent, and what
//! the tributaries and leaves get of it from there on. The definitions stand in `specs/`, and the laws in `laws`.
//! They are over whole lists of bits, and know no file and no chain by its name.
#![tactic(auto)]

pub mod laws;
