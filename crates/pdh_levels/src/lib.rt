//! The levels of a chain of multiplexers: how many nodes and leaves it has, which stands where, and how far what is
//! received is behind.
//! It knows a level by its numbers alone, and no slot, no schedule and no bit of a line.
//!
//! A chain has one to three levels, each with multiplexers of one kind: its top is the first level's, and each tributary
//! of a node that isn't of the last level is a node of the next one. So `/` is the top, `/2` the node of its second
//! tributary, and `/2/3` that of the third tributary of `/2`. The nodes have an order, a node before those below it: `/`,
//! `/1`, `/1/1`, and so on. The tributaries of the last level's nodes are the leaves, in the order of their paths.
//!
//! A node has an elastic store for each tributary, and a count for it in each frame. Only a top may have none: then each of
//! its frames carries as many bits of every tributary, and the clocks of its tributaries are that of its line.
#![tactic(auto)]

mod bounds;
mod frame;
mod leaves;
mod nodes;
mod stores;

pub use bounds::MOST_TRIBUTARIES;
pub use frame::{delay, frame_bytes};
pub use leaves::{LeafPlace, leaf_count, leaf_place};
pub use nodes::{level_of, node_at, node_count, node_place};
pub use stores::store_count;
