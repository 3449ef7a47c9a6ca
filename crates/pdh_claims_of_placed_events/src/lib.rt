//! What callers may rely on of events with their places, each by its public contract alone: a wrong body that its contract
//! would pass breaks the claim of that name here.
#![tactic(auto)]

pub mod ds1_events;
pub mod e1_events;
pub mod placed;
