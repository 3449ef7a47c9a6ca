//! Two terminals of a chain, each of which sends the state of its receiver back in its own line.
//! A link has two ways, to east and to west. On each a sender makes the frames of a line, a script disturbs it, and the
//! receiver at the other end takes what comes. In a tick a frame goes on each way. The crate knows lines, scripts and
//! watches, and no file.
#![tactic(auto)]

mod incoming;
mod laws;
mod line;
mod link;
mod linking;
mod outgoing;
mod session;
mod tally;
mod unwatched;
mod way;

pub use laws::{
    an_undisturbed_line_is_delivered, an_undisturbed_line_tells_what_was_said,
    each_end_receives_the_disturbed_line, no_store_meets_an_event,
};
pub use linking::duplex;
pub use session::{Duplex, Session};
