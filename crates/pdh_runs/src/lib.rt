//! The runs of a frame: so many overhead slots, then so many payload slots, over the whole frame, and the payload as columns,
//! one for each tributary.
//! It knows one frame of any shape, and no store, no search for alignment and no chain.
#![tactic(auto)]

mod dealing;
pub mod laws;
mod layout;
mod parts;
mod receiving;
mod run;
mod sending;
mod tables;
mod turns;
mod words;

pub use layout::Layout;
pub use parts::Parts;
pub use run::{Run, runs};
