//! Framed 2048 kbit/s streams with CRC-4 multiframes: frame and multiframe alignment, their loss, and what the CRC-4
//! blocks tell (G.706, 4).
//! It knows no file and no chain: the bits are handed to it, the payload goes to a drain, and the
//! events go to a watch.
#![tactic(auto)]

mod align;
mod counts;
mod held;
mod laws;
mod payload;
mod stage;
mod tell;

pub use align::E1Align;
pub use laws::{events_come_bit_by_bit, payload_fits_the_stream};
