//! What is reported of a recorded line, as plain values, and these as JSON.
//! It knows numbers and names, and not where they come from.
#![tactic(auto)]

mod found;
mod health;
mod node_report;
mod report;

pub use found::{Found, FoundLevel, Reading};
pub use health::{is_healthy, troubled};
pub use node_report::NodeReport;
pub use report::Report;
