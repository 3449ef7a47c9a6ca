//! The text of a report: its head, the table of nodes, and the lines below it; and what is said where there is no report.
//! It knows plain values, and no event and no file.
#![tactic(auto)]

mod below;
mod groups;
mod head;
mod listing;
mod numbers;
mod outcome;
mod remarks;
mod table;
mod text;
mod words;

pub use head::verdict;
pub use numbers::{clock_time, count, duration, grouped};
pub use outcome::{NearestTop, Outcome, outcome_text};
pub use remarks::{Code, EventPlace, Hint, Remarks};
pub use words::reading_words;
