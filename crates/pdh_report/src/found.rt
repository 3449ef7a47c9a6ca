//! What told the chain of a recording.

use serde::Serialize;

/// The nodes of a level by which a chain was told.
#[derive(Debug, Drop, PartialEq, Serialize)]
pub struct FoundLevel<'a> {
    /// The level, as `DS3`.
    pub level: &'a str,
    /// Its nodes.
    pub nodes: u64,
    /// Those whose line is one of their shape.
    pub stand: u64,
    /// The judged frames of these.
    pub judged: u64,
    /// The right ones among these frames.
    pub right: u64,
}

/// An order in which the bits of a recording are read.
#[derive(Clone, Copy, Debug, PartialEq, Serialize)]
pub struct Reading {
    /// The first bit of a byte is its least significant one.
    pub lsb_first: bool,
    /// Every bit is inverted.
    pub inverted: bool,
}

/// By what a chain was told.
#[derive(Debug, Drop, PartialEq, Serialize)]
pub struct Found<'a> {
    /// How many bits were looked at.
    pub part_bits: u64,
    /// The levels of the chain, from the top.
    pub levels: Vec<FoundLevel<'a>>,
    /// The other readings in which the chain is found too.
    pub also: Vec<Reading>,
}
