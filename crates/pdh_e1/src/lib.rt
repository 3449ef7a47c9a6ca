//! Framed 2048 kbit/s streams in multiframes with CRC-4 (G.704, 2.3).
//! It knows whole payloads and whole lines, and no search for alignment, no chain and no file.
//!
//! A frame has 32 octets, and a multiframe has 16 frames. The first octet of a frame carries alignment signals, the bits
//! of CRC-4 words and service bits; the 31 others are payload.
#![tactic(auto)]

mod codec;
mod crc;
mod fault;
mod multiframe;

pub use codec::{pack, packed_is_given_back, unpack};
pub use crc::crc4_after;
pub use fault::{PackFault, UnpackFault};
