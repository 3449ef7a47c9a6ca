//! What callers may rely on of the storey Schedules, each by its public contract alone: a wrong body that its contract
//! would pass breaks the claim that is named by that mistake.
#![tactic(auto)]

pub mod clock;
pub mod levels;
pub mod row_text;
pub mod rows;
