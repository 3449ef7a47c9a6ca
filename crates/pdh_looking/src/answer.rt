//! What a look at a recording answers.

use crate::{LevelFound, Nearest};
use pdh_candidates::Candidate;
use pdh_readings::BitOrder;

/// What a recording is.
#[derive(Drop)]
pub struct Found {
    /// What it is, and the order of its bits.
    pub candidate: Candidate,
    /// What was found of its levels, from the top.
    pub levels: Vec<LevelFound>,
    /// The other orders in which it may be the same.
    pub also: Vec<BitOrder>,
    /// Whether each delivered frame of its top is like the one before it: an idle pattern could look the same.
    pub alike: bool,
}

/// What a look at a recording answers.
#[derive(Drop)]
pub enum Looked {
    /// What it is.
    Found(Found),
    /// It is none of these: the frames at tops of which most were right, at most three.
    Nothing(Vec<Nearest>),
}
