//! What framed streams have in common, whatever their frames are. It has no code: `specs/` defines the words that check
//! bits carry, the first wrong frame of a line, and what a machine puts of the bits that it takes, and `proofs/` has their
//! laws.
//! It knows bits and the numbers of frames alone, and no frame of a standard.
#![tactic(auto)]
