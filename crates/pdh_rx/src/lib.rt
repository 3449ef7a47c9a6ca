//! Demultiplexers that take a line many bits at a time, and a bit that may bring events by itself: a
//! tree of nodes over leaves that put bits to a drain.
//! A node knows its children by their calls alone, and the crate no file and no chain by its name.
#![tactic(auto)]

mod children;
mod counts;
mod frames;
mod giving;
mod merging;
mod node;
mod rounds;
mod rx;
mod strip;
mod tail;

pub use counts::NodeCounts;
pub use giving::take_watched;
pub use node::{RxNode, frames_after, gap_after};
pub use rx::Rx;
pub use strip::Strip;
pub use tail::Tail;
