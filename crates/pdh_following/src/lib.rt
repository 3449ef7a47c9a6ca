//! The following of a recording to its end, as a line: each event is shown to the health of the line's nodes, and written as a row.
//! It knows recordings, lines and events, and no chain.
#![tactic(auto)]

mod fault;
mod following;
mod line;
mod names;
mod numbers;
mod progress;
mod reading;
mod rows;
mod teller;

pub use fault::FollowFault;
pub use following::follow;
pub use line::{Followed, LineFound, LineWanted};
pub use names::{kind_name, node_name};
pub use progress::Progress;
