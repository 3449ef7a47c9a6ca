//! Framed DS1 lines that are watched: what their bits show of AIS, of the alignment, and of the CRC-6 of extended superframes.
//! It knows the line, and no chain and no file.
#![tactic(auto)]

mod checker;
mod line;

pub use line::SuperframeLine;
