//! A multiplexer without stores: its children are locked to it, and a slot takes the next bit of the
//! child that it reads.
#![tactic(auto)]

mod beginning;
mod bits;
mod body;
mod children;
mod filling;
mod gathering;
mod locked;
mod quiet;

pub use children::Children;
pub use locked::{Locked, open_locked};
