//! What monitors see of a recorded line: the line goes to the receivers of its chain, or to the alignment of a 2048 kbit/s
//! stream, and the bits that those put are let go.
//! It knows a line as list 0 of a feed, and no file and no command.
#![tactic(auto)]

mod framed;
mod line;
mod line_port;
mod seen;

pub use framed::{FramedSeen, inspect_framed};
pub use line::{LineSeen, inspect_line};
pub use seen::{LineStop, Seen};
