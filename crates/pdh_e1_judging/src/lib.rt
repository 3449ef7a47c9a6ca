//! How many multiframes of a 2048 kbit/s line its alignments judge, and how many of them are right: by this it is told whether a
//! recorded line is one.
//! It knows the line, and no chain and no file.
#![tactic(auto)]

mod judge;
mod multiframes;

pub use judge::judge_e1;
