//! What is reported of a recording.

ghost use Rattle.std.specs.Prelude.{◌≡◌};

use crate::{Found, NodeReport, Reading};
use serde::Serialize;
use serde_json::Error;
use std::alloc::Global;

/// What is reported of a recording. Its members stand in the order of the JSON.
#[derive(Debug, Drop, PartialEq, Serialize)]
pub struct Report<'a> {
    /// The version of the program.
    pub pdhreport: &'a str,
    /// The name of the recording as it was given.
    pub file: &'a str,
    /// The first bit that was read.
    pub from: u64,
    /// How many bits were read.
    pub bits: u64,
    /// The nominal rate of the top in bits a second.
    pub rate: u64,
    /// The word of the chain.
    pub chain: &'a str,
    /// The first bit of a byte is its least significant one.
    pub lsb_first: bool,
    /// Every bit is inverted.
    pub inverted: bool,
    /// By what the chain was told; nothing where it was given.
    pub found: Option<Found<'a>>,
    /// Nothing is wrong with the line, as `is_healthy` tells it of its nodes.
    pub healthy: bool,
    /// How many events there were.
    pub events: u64,
    /// Every node, in the order of paths.
    pub nodes: Vec<NodeReport<'a>>,
}

impl<'a> Report<'a> {
    /// The order in which the bits were read.
    pub fn reading(&self) -> Reading
        ensures lsb_first { result.lsb_first ≡ self.now.lsb_first }
        ensures inverted { result.inverted ≡ self.now.inverted }
    {
        Reading {
            lsb_first: self.lsb_first,
            inverted: self.inverted,
        }
    }

    /// The report as JSON: one object, its members in the order in which they are declared, each on a line of its own that is
    /// indented by two spaces for each level, and a line feed at the end; or the refusal of memory.
    pub fn to_json(&self, alloc: Global) -> Result<String, Error> {
        let mut text = serde_json::to_string_pretty(alloc, self)?;
        text.push('\n')?;
        Ok(text)
    }
}
