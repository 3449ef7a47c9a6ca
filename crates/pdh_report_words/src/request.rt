//! What the words of the command line ask for.

use pdh_candidates::Word;

/// The names of the outputs that are wanted.
#[derive(Clone, Copy, Debug, PartialEq, Eq)]
pub struct Outputs<'a> {
    /// The file of every event, as CSV.
    pub events: Option<&'a str>,
    /// The file of the table, as JSON.
    pub json: Option<&'a str>,
    /// The file of the picture, as SVG.
    pub picture: Option<&'a str>,
}

/// What is asked for.
#[derive(Clone, Copy, Debug, PartialEq, Eq)]
pub struct Request<'a> {
    /// The recording; `-` is the standard input.
    pub file: &'a str,
    /// What the line is; nothing where it is to be found.
    pub chain: Option<Word>,
    /// The first bit of a byte is its least significant one.
    pub lsb_first: bool,
    /// Every bit is inverted.
    pub inverted: bool,
    /// The first bit that is read, counted from 0.
    pub from: u64,
    /// The most bits that are read; nothing where all are.
    pub bits: Option<u64>,
    /// Every node is listed.
    pub lists_all: bool,
    /// The outputs.
    pub outputs: Outputs<'a>,
}
