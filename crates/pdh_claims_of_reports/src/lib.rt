//! What callers may rely on of reports and of the reading of recordings, each by its public contract alone: a wrong body that its
//! contract would pass breaks the claim of that name here.
#![tactic(auto)]

pub mod event_rows;
pub mod outputs;
pub mod picture;
pub mod recording;
pub mod report;
pub mod report_text;
