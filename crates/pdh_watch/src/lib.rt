//! Events of a received line, and who sees them.
//! It knows the kinds and places of events, and not what in a line brings them about.
#![tactic(auto)]

mod event;
mod kind;
mod members;
mod monitor;
mod monitors;
mod names;
mod watch;

pub use event::Event;
pub use kind::Kind;
pub use members::{Boxes, Members};
pub use monitor::Monitor;
pub use monitors::{Counter, First, Latch};
pub use watch::{Quiet, Watch};
