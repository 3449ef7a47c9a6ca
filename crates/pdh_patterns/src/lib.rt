//! The leaves of a chain that give test patterns: the pattern of a leaf, the schedule by which its bits arrive, and all leaves
//! as a feed. What is made of them, a line or a session, is told above.
#![tactic(auto)]

mod laws;
mod pattern;
mod patterns;
mod schedule;

pub use laws::made_schedules_are_within_tolerance;
pub use pattern::Pattern;
pub use patterns::Patterns;
pub use schedule::clock_of;
