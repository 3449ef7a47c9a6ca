//! The commands of framed lines: a payload's file to the file of a line that carries it, and back. What they come to is said once
//! for every codec, which is the frames of a line, with what its two commands say.
//! `inspect e1` shows the events of such a line. `e1pack` and `e1unpack` hold their files whole; `ds1pack` and `ds1unpack` give the bits of one file to a machine a piece at a
//! time, and it puts those of the other.
//! It knows no words: `run` hands a form and the shelf to it.
#![tactic(auto)]

mod codec;
mod delivering;
mod ds1;
mod e1;
mod holding;
mod inputs;
mod inspecting;
mod machine;
mod packing;
mod streaming;
mod texts;
mod unpacking;

pub use codec::{Codec, Found};
pub use e1::E1;
pub use holding::{pack_e1, unpack_e1};
pub use inspecting::InspectE1;
pub use packing::PackDs1;
pub use unpacking::UnpackDs1;
