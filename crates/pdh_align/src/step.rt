//! The steps of an aligner, one for each bit that it takes.

/// What an aligner tells of a line bit that it took.
#[derive(Clone, Copy, Debug, PartialEq, Eq)]
pub enum Step {
    /// None of the others.
    Nothing,
    /// Three whole frames stand at the oldest position that was held, and they don't confirm it: it
    /// was given up.
    Rejected,
    /// The oldest position that is held is confirmed, and three frames are ready.
    Aligned,
    /// One further frame is ready.
    Frame,
    /// The frame that ended completes a loss: a search has begun at its first bit.
    Lost,
}
