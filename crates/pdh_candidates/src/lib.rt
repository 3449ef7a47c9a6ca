//! What a recording may be: the chains and framed streams in the order in which they are tried, each in every order of bits, and
//! the search for the first that meets a test.
//! It knows names and orders, and no frame and no line.
#![tactic(auto)]

mod candidate;
mod searching;
mod word;

pub use candidate::{Candidate, all_candidates};
pub use searching::{Trial, first_that};
pub use word::{Word, all_words};
