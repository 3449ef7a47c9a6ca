//! The commands of a recorded line: `demux` and `smooth` take it apart, `inspect` and `show` look at it, and `disturb` changes it.
//! They know no words: `run` hands them what the words say, and the shelf.
#![tactic(auto)]

mod apart;
mod demuxing;
mod disturbing;
mod inspecting;
mod showing;
mod smoothing;

pub use demuxing::Demux;
pub use disturbing::Disturb;
pub use inspecting::Inspect;
pub use showing::Show;
pub use smoothing::Smooth;
