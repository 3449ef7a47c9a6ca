//! Framed 2048 kbit/s lines with CRC-4 multiframes that are watched.
//! It knows the line, and no chain and no file.
#![tactic(auto)]

mod line;

pub use line::E1Line;
