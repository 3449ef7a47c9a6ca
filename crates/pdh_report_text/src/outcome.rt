//! What is said of a recording: its report, or why there is none.

ghost use Rattle.pdh_report_text.specs.Outcomes.{HasRate};

use crate::numbers::grouped;
use crate::remarks::Remarks;
use crate::text::report_text;
use crate::words::short_reading_words;
use pdh_report::{Reading, Report};
use std::alloc::{AllocError, Global};

/// A top that came near to being found.
#[derive(Clone, Copy)]
pub struct NearestTop<'a> {
    /// Its level, as `E2`.
    pub level: &'a str,
    /// The order of bits.
    pub reading: Reading,
    /// The frames that were judged.
    pub judged: u64,
    /// The right ones among them.
    pub right: u64,
}

/// What the looking at a recording came to.
#[derive(Clone, Copy)]
pub enum Outcome<'a> {
    /// Every bit is a one.
    AllOnes,
    /// Every bit is a zero.
    AllZeros,
    /// Nothing was found.
    Nothing {
        /// How many bits were looked at.
        part_bits: u64,
        /// The nearest tops, three at most.
        nearest: &'a [NearestTop<'a>],
    },
    /// It was read.
    Read {
        /// What is reported of it.
        report: &'a Report<'a>,
        /// What stands beside the table.
        remarks: &'a Remarks<'a>,
    },
}

// What is said where nothing was found in so many bits.
fn nothing_text(
    alloc: Global,
    part_bits: u64,
    nearest: &[NearestTop<'_>],
) -> Result<String, AllocError> {
    let bits = grouped(alloc, part_bits)?;
    let mut out = format!(in alloc; "nothing found in the first {bits} bits\n")?;
    for top in nearest {
        let level = top.level;
        let words = short_reading_words(top.reading);
        let right = grouped(alloc, top.right)?;
        let judged = grouped(alloc, top.judged)?;
        write!(
            out,
            "nearest    {level}, {words}: {right} of {judged} frames right\n"
        )?;
    }
    out.push_str("try --from, or --chain\n")?;
    Ok(out)
}

/// What is said of a recording; or the refusal of memory.
pub fn outcome_text(alloc: Global, outcome: &Outcome<'_>) -> Result<String, AllocError>
    requires { HasRate outcome.now }
{
    match outcome {
        Outcome::AllOnes => format!(in alloc; "all ones\n"),
        Outcome::AllZeros => format!(in alloc; "all zeros\n"),
        Outcome::Nothing { part_bits, nearest } => nothing_text(alloc, *part_bits, nearest),
        Outcome::Read { report, remarks } => report_text(alloc, report, remarks),
    }
}
