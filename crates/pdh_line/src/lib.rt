//! Lines of frames. It has no code: `specs/` defines how a received line is tracked and what it gives
//! each tributary, what a node sends and which events its stores meet, and `proofs/` has the laws.
//! It knows whole lists of bits and any shapes, and no machine, no file and no chain by its name.
#![tactic(auto)]
