//! `demux` of each chain.
//! It knows ports, and no file and no command.
#![tactic(auto)]

mod demuxing;

pub use demuxing::demux;
