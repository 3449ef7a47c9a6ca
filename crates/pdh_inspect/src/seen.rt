//! What an inspection answers, with the feed that it was handed.

/// Why a line wasn't seen to its end.
#[derive(Clone, Copy, Debug, PartialEq, Eq)]
pub enum LineStop {
    /// Memory was wanting; then no event was shown.
    Memory,
    /// The feed failed; then the events of the bits that it gave were shown.
    Failed,
}

/// What was seen of the line of a feed, with the feed.
#[derive(Drop)]
pub struct Seen<F, T> {
    /// The feed.
    pub feed: F,
    /// What was seen.
    pub result: Result<T, LineStop>,
}
