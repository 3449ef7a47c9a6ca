//! What a report's text says beside the table.

use pdh_report::Reading;

/// An event's kind, node and place.
#[derive(Clone, Copy, Debug, PartialEq)]
pub struct EventPlace<'a> {
    /// The kind, as `parity`.
    pub kind: &'a str,
    /// The path of the node.
    pub node: &'a str,
    /// The bit of the recording, counted from its start.
    pub place: u64,
}

/// A code of the far end alarm and control channel.
#[derive(Clone, Copy, Debug, PartialEq)]
pub struct Code {
    /// The code.
    pub code: u8,
    /// The bit of the recording, counted from its start.
    pub place: u64,
}

/// What a search found where a chain was given whose top doesn't stand.
#[derive(Clone, Copy)]
pub enum Hint<'a> {
    /// Nothing.
    Nothing {
        /// How many bits were looked at.
        part_bits: u64,
    },
    /// A chain.
    Chain {
        /// How many bits were looked at.
        part_bits: u64,
        /// Its word.
        chain: &'a str,
        /// The order of bits in which it was found.
        reading: Reading,
    },
}

impl Hint<'_> {
    /// How many bits were looked at.
    pub fn part_bits(self) -> u64 {
        match self {
            Hint::Nothing { part_bits } => part_bits,
            Hint::Chain { part_bits, .. } => part_bits,
        }
    }
}

/// What the text says beside the table.
#[derive(Clone, Copy)]
pub struct Remarks<'a> {
    /// The chain was found, and all delivered frames of the top are equal.
    pub alike: bool,
    /// What a search found instead, where the chain was given and its top doesn't stand.
    pub hint: Option<Hint<'a>>,
    /// The first event that isn't an alignment, and the last, if there is one.
    pub events: Option<(EventPlace<'a>, EventPlace<'a>)>,
    /// The first codes of the top, three at most.
    pub codes: &'a [Code],
    /// How many more codes there were.
    pub more_codes: u64,
    /// Every node is listed.
    pub all: bool,
}
