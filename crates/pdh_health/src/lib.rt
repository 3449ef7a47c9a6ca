//! How healthy the nodes of a recorded line are, by their events with places.
//! It knows events, nodes and places, and no chain, no receiver and no file.
//!
//! A node is out of alignment from a loss to the next alignment. Before its first alignment it is, unless that comes as early as it
//! does where the recording begins in mid frame; so each node has two courses, and at the end its first alignment tells which of
//! them is its own.
#![tactic(auto)]

mod codes;
mod course;
mod errors;
mod health;
mod node;
mod node_health;
mod plan;
mod sign;

pub use codes::FirstCodes;
pub use health::Health;
pub use node_health::{CourseHealth, LineHealth, NodeHealth, NodeNumbers};
pub use plan::{Framing, NodePlan};
