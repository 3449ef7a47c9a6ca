//! The edge: files, output and lists of bits as traits, with counts of their faults.
//! What it has of its own stands in memory: it asks the system for nothing but memory, and knows no
//! frame.
#![tactic(auto)]

mod buffer;
mod laws;
mod mem_port;
mod mem_shelf;
mod mem_sink;
mod never_fails;
mod plan;
mod port;
mod shelf;
mod sink;
mod taking;
mod waiting;

pub use laws::no_put_into_room_fails;
pub use mem_port::MemPort;
pub use mem_shelf::MemShelf;
pub use mem_sink::MemSink;
pub use never_fails::NeverFails;
pub use port::{Drain, Feed, FeedStop, Port};
pub use shelf::{Call, Failed, Shelf};
pub use sink::Sink;
pub use taking::take_bits;
pub use waiting::Waiting;
