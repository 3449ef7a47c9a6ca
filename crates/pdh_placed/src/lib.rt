//! Events with the places of the bits that bring them, many bits at a time.
//! It knows receivers and watches, and no chain and no file.
#![tactic(auto)]

mod demultiplexed;
mod laws;
mod placed;
mod placing;
mod recorded;

pub use demultiplexed::Demultiplexed;
pub use laws::places_leave_the_events;
pub use placed::Placed;
pub use placing::{PlacedWatch, Placing};
pub use recorded::Recorded;
