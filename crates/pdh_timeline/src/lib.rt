//! What each second of a line showed, by what came at its bits.
//! It knows places, states and blocks, and no event and no node.
#![tactic(auto)]

mod state;
mod timeline;
mod touch;

pub use state::State;
pub use timeline::Timeline;
