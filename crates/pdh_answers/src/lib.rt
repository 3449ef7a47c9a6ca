//! What a command answers: what it did or why it stopped, the status, the text, and the files that it
//! names, and how many leaves of a chain have files; and the log of slips over the output.
//! It does no command: a file is a name to it, and the output is a sink.
#![tactic(auto)]

mod answer;
mod file;
mod leaf;
mod reporting;
mod telling;
mod texts;

pub use answer::{Done, FrameText, Stop};
pub use file::{Bits, File, Name};
pub use leaf::leaf_count;
pub use reporting::report;
pub use telling::SinkLog;
pub use texts::chain_counted;
