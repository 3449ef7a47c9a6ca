//! The running of worked cases: each by the program's own call, over files and an output in memory.
//! It knows the program by its words, files, text, status and monitors, and no frame and no chain.
#![tactic(auto)]

mod performing;
mod running;
mod suite;
mod sweep;
mod trial;
mod watched;

pub use suite::judge_all;
pub use trial::judge_case;
