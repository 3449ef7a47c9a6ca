//! What a run of `pdhreport` does: it reads its words, looks at the recording, follows its line, and tells what it found.
//! It joins the crates below it, and knows no frame and no chain.
#![tactic(auto)]

mod chosen;
mod files;
mod looking;
mod nodes;
mod picture_rows;
mod progress;
mod reports;
mod running;
mod stop;
mod telling;

pub use running::run;
