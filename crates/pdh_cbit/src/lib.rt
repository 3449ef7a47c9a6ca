//! The C bits of DS3 frames with C-bit parity (ANSI T1.107): their fields, and the words of the far
//! end alarm and control channel.
//! It knows no slot of a frame: C bits are a number to it, and the channel a list of bits.
#![tactic(auto)]

mod feac;
mod fields;
mod laws;

pub use feac::{FeacReceiver, FeacSender};
pub use fields::Fields;
pub use laws::answered_codes;
