//! The events of received lines: what each bit of a line shows, in order, over whole lists (`specs/`), for one node, for
//! whole chains, and what is common to them and to 2048 kbit/s streams; and what tells them bit by bit and frame by frame.
//! Its code is told which frames are delivered, and knows no search for alignment.
#![tactic(auto)]

mod ais;
mod alarm;
mod bits;
mod codes;
mod duties;
mod note;
mod teller;

pub use ais::AisRun;
pub use note::{note_change, note_kind};
pub use teller::FrameTeller;
