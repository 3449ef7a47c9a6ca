//! Bits in packed words of 64: lists, rings and arrays of them.
//! It knows bits and bytes alone, and no frame and no file.
#![tactic(auto)]

mod altering;
mod appending;
mod bit_array;
mod bitwise;
mod bools;
mod bytes;
mod growing;
mod packed;
mod padded;
mod removing;
mod ring;
mod shifts;
mod word;

pub use bit_array::BitArray;
pub use packed::Packed;
pub use ring::BitRing;
pub use word::Word;
