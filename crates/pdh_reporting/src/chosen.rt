//! What a line is read as.

use pdh_candidates::Word;
use pdh_looking::{Found, Nearest};
use pdh_readings::BitOrder;

/// What a search found beside a chain that was given, whose top doesn't stand.
#[derive(Clone, Copy, Debug, PartialEq, Eq)]
pub(crate) enum Beside {
    /// It wasn't asked: the top stands, or nothing was given.
    Unasked,
    /// Nothing.
    Nothing,
    /// This, in this order of bits.
    Chain(Word, BitOrder),
}

/// What a line is read as, and why.
#[derive(Drop)]
pub(crate) struct Chosen {
    /// The chain or stream.
    pub(crate) word: Word,
    /// The order of bits.
    pub(crate) order: BitOrder,
    /// How many bits were looked at.
    pub(crate) part_bits: u64,
    /// By what it was found; nothing where it was given.
    pub(crate) found: Option<Found>,
    /// What a search found beside it.
    pub(crate) beside: Beside,
}

/// What the looking at a recording came to.
#[derive(Drop)]
pub(crate) enum Choice {
    /// It is read.
    Read(Chosen),
    /// Nothing was found in so many bits but these tops.
    Nothing(u64, Vec<Nearest>),
    /// It consists of this byte, 0 or 255.
    Constant(u8),
}
