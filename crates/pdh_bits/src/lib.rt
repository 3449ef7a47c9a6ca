//! Bits of bytes, and whole bytes of bits, the most significant bit of each byte first.
//! It stands on no other crate, and knows no frame and no file.
#![tactic(auto)]

mod bit_out;
mod bits;
mod table;

pub use bit_out::{BitOut, Full};
pub use bits::{bits_of, bytes_of};
