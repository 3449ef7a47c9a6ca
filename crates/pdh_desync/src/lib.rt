//! Far stores: what a demultiplexer finds in uneven slots is given out evenly.
#![tactic(auto)]

mod far_store;
mod far_stores;
pub mod laws;
mod leaves;
mod mute;
mod node;
mod unwatched;

pub use mute::Mute;
pub use node::SmoothNode;
