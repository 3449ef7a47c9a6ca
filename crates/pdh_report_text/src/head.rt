//! The head of a report's text.

ghost use Rattle.std.specs.Prelude.{◌<◌};

use crate::numbers::{clock_time, grouped};
use crate::remarks::{Hint, Remarks};
use crate::words::{chain_words, could_be_deeper, reading_words};
use pdh_report::{Found, FoundLevel, NodeReport, Report, troubled};
use std::alloc::{AllocError, Global};

// A part of fewer bits may be too short to show the lower levels of a chain.
const SHORT_PART: u64 = 262_144;

/// How healthy a line with these nodes is, in a few words; or the refusal of memory.
pub fn verdict(alloc: Global, nodes: &[NodeReport<'_>]) -> Result<String, AllocError> {
    let some = troubled(nodes);
    let all = nodes.len();
    if some > 0 {
        return format!(in alloc; "{some} of {all} nodes with events");
    }
    if nodes.first().is_some_and(|top| top.aligned == 0) {
        return format!(in alloc; "too short to tell");
    }
    format!(in alloc; "nothing happened")
}

// Appends the nodes of each level that stand, as `DS3 1 of 1; DS2 7 of 7`.
fn push_levels(out: &mut String, levels: &[FoundLevel<'_>]) -> Result<(), AllocError> {
    let mut separator = "";
    for level in levels {
        let name = level.level;
        let stand = level.stand;
        let nodes = level.nodes;
        write!(out, "{separator}{name} {stand} of {nodes}")?;
        separator = "; ";
    }
    Ok(())
}

// Appends by what the chain was found.
fn push_found(alloc: Global, out: &mut String, found: &Found<'_>) -> Result<(), AllocError> {
    out.push_str("  found      ")?;
    push_levels(out, &found.levels)?;
    let bits = grouped(alloc, found.part_bits)?;
    write!(out, ", in the first {bits} bits\n")
}

// Appends that the chain was given, and whether its top was sought in vain.
fn push_given(alloc: Global, out: &mut String, hint: Option<Hint<'_>>) -> Result<(), AllocError> {
    let Some(hint) = hint else {
        return out.push_str("  given      by --chain; nothing was tried\n");
    };
    let bits = grouped(alloc, hint.part_bits())?;
    write!(
        out,
        "  given      by --chain; its top isn't found in the first {bits} bits\n"
    )
}

// Appends the other readings in which the chain is found, and what makes the finding doubtful.
fn push_doubts(
    out: &mut String,
    report: &Report<'_>,
    found: &Found<'_>,
    alike: bool,
) -> Result<(), AllocError> {
    for reading in &found.also {
        let words = reading_words(*reading);
        write!(out, "  fits too   {words}\n")?;
    }
    if alike {
        out.push_str("  but        every frame is alike; an idle pattern could look the same\n")?;
    }
    if found.part_bits < SHORT_PART && could_be_deeper(report.chain, found.levels.len()) {
        out.push_str("  but        lower levels could hide: fewer than 262,144 bits\n")?;
    }
    Ok(())
}

// Appends what a search found instead of a chain that was given.
fn push_hint(out: &mut String, hint: Hint<'_>) -> Result<(), AllocError> {
    match hint {
        Hint::Nothing { .. } => out.push_str("  hint       nothing else is found there either\n"),
        Hint::Chain { chain, reading, .. } => {
            let words = reading_words(reading);
            write!(out, "  hint       {chain} is found there, {words}\n")
        }
    }
}

// Appends the recording, its length and its chain.
fn push_recording(alloc: Global, out: &mut String, report: &Report<'_>) -> Result<(), AllocError>
    requires { 0 < report.now.rate }
{
    let file = report.file;
    let bits = grouped(alloc, report.bits)?;
    let time = clock_time(alloc, report.bits, report.rate)?;
    let kilobits = report.rate / 1000;
    write!(out, "{file}: {bits} bits, {time} s at {kilobits} kbit/s\n")?;
    let word = report.chain;
    let words = chain_words(word);
    write!(out, "  chain      {word}: {words}\n")
}

/// Appends the head: the recording, its chain, by what it was found, how it is read, and how healthy it is.
pub fn push_head(
    alloc: Global,
    out: &mut String,
    report: &Report<'_>,
    remarks: &Remarks<'_>,
) -> Result<(), AllocError>
    requires { 0 < report.now.rate }
{
    push_recording(alloc, out, report)?;
    match &report.found {
        Some(found) => push_found(alloc, out, found)?,
        None => push_given(alloc, out, remarks.hint)?,
    }
    let words = reading_words(report.reading());
    write!(out, "  read as    {words}\n")?;
    if let Some(found) = &report.found {
        push_doubts(out, report, found, remarks.alike)?;
    }
    if let Some(hint) = remarks.hint {
        push_hint(out, hint)?;
    }
    let verdict = verdict(alloc, &report.nodes)?;
    write!(out, "  health     {verdict}\n")
}
