//! The track of a node: the times in which it was out of alignment, in AIS and in alarm, and its seconds.
//! It knows places and states, and no event and no node.
#![tactic(auto)]

mod track;

pub use track::Track;
