//! Events as rows of CSV, with their places in the recording.
//! It knows names and numbers, and neither events nor files.
#![tactic(auto)]

mod row;
mod rows;
mod seconds;

pub use row::EventRow;
pub use rows::{RowError, finish, rows_writer, write_header, write_row};
