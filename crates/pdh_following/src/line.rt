//! What is wanted of a line, and what was found of it.

ghost use Rattle.std.specs.Prelude.{◌<◌, ◌^◌};

use pdh_health::{LineHealth, NodePlan};
use pdh_readings::BitOrder;
use std::io::Write;

/// How a recording is followed, and what is wanted of it.
#[derive(Drop)]
pub struct LineWanted<'p, W: Write + Drop> {
    /// The order of its bits.
    pub order: BitOrder,
    /// The bit of the file that is its first one.
    pub from: u64,
    /// The rate of its line in bits a second.
    pub rate: u64,
    /// What is known of the line's nodes before its first bit.
    pub plans: &'p [NodePlan],
    /// Where the rows of its events are written, if they are wanted.
    pub events: Option<W>,
    ghost some: { 0 < rate },
    ghost few: { rate < 2 ^ 30 },
}

/// What was found of a line.
#[derive(Drop)]
pub struct LineFound {
    /// How many bits were read.
    pub bits: u64,
    /// The health of its nodes.
    pub health: LineHealth,
}

/// A recording that was followed to its end.
#[derive(Drop)]
pub struct Followed<W: Write + Drop> {
    /// What was found of its line.
    pub line: LineFound,
    /// Where the rows of its events were written.
    pub events: Option<W>,
}
