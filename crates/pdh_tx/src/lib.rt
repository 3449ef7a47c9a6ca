//! Multiplexers that make a line bit by bit: a tree of nodes, each with an elastic store for each of
//! its tributaries, over leaves that pass the bits of a feed.
#![tactic(auto)]

mod arrivals;
mod batches;
mod beginning;
mod body;
mod decisions;
mod leaf;
mod node;
mod pieces;
mod position;
mod queue;
mod quiet;
mod scratch;
mod sender;
mod slots;
mod stored;
mod tributaries;
mod tributary;
mod tx;

pub use batches::{BATCH, open_queues};
pub use body::Body;
pub use decisions::{Decisions, carried, overhead_of, write_overhead};
pub use leaf::Leaf;
pub use node::Node;
pub use pieces::Piece;
pub use queue::Queue;
pub use scratch::Scratch;
pub use sender::Sender;
pub use tributaries::Tributaries;
pub use tx::{Tx, TxStop};
