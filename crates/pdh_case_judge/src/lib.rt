//! What differs between what a run left and what its case expects, and the files that a case gives.
//! It runs nothing, and knows the program by its cases and by what its runs leave alone.
#![tactic(auto)]

mod content;
mod failing;
mod files;
mod findings;
mod judging;
mod known;
mod outcome;
mod register;
mod saying;
mod showing;

pub use content::content_of;
pub use failing::judge_failed;
pub use files::Files;
pub use findings::Findings;
pub use judging::judge;
pub use known::known_names;
pub use outcome::Outcome;
pub use saying::joined;
pub use showing::show;
