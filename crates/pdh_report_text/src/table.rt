//! The rows of a report's table.

ghost use Rattle.std.specs.Prelude.{◌<◌};

use crate::listing::Shown;
use crate::numbers::{count, duration, grouped};
use pdh_report::{NodeReport, Report};
use std::alloc::{AllocError, Global};

// Appends the names of the columns.
fn push_columns(out: &mut String) -> Result<(), AllocError> {
    out.push_str(
        "node    level        frames  losses    bad       out   longest       AIS     alarm",
    )?;
    out.push_str("    ES   SES   UAS\n")
}

// Appends the counts of a node: frames, losses, and frames with a wrong alignment bit.
fn push_counts(alloc: Global, out: &mut String, node: &NodeReport<'_>) -> Result<(), AllocError> {
    let path = node.node;
    let level = node.level;
    let frames = grouped(alloc, node.frames)?;
    let losses = count(alloc, node.lost)?;
    let bad = count(alloc, node.bad)?;
    write!(out, "{path:<8}{level:<6}{frames:>13}{losses:>8}{bad:>7}")
}

// Appends the times of a node: out of alignment, the longest of these, in AIS, and in alarm.
fn push_times(
    alloc: Global,
    out: &mut String,
    node: &NodeReport<'_>,
    rate: u64,
) -> Result<(), AllocError>
    requires { 0 < rate }
{
    let outage = duration(alloc, node.out_bits, rate)?;
    let longest = duration(alloc, node.out_longest_bits, rate)?;
    let ais = duration(alloc, node.ais_bits, rate)?;
    let alarm = duration(alloc, node.alarm_bits, rate)?;
    write!(out, "{outage:>10}{longest:>10}{ais:>10}{alarm:>10}")
}

// Appends the seconds of a node.
fn push_seconds(alloc: Global, out: &mut String, node: &NodeReport<'_>) -> Result<(), AllocError> {
    let errored = count(alloc, node.es)?;
    let severe = count(alloc, node.ses)?;
    let unavailable = count(alloc, node.uas.unwrap_or(0))?;
    write!(out, "{errored:>6}{severe:>6}{unavailable:>6}\n")
}

// Appends the row of a node, with times at a rate in bits a second.
fn push_row(
    alloc: Global,
    out: &mut String,
    node: &NodeReport<'_>,
    rate: u64,
) -> Result<(), AllocError>
    requires { 0 < rate }
{
    push_counts(alloc, out, node)?;
    push_times(alloc, out, node, rate)?;
    push_seconds(alloc, out, node)
}

/// Appends the names of the columns and the rows of the nodes that are listed.
pub fn push_table(
    alloc: Global,
    out: &mut String,
    report: &Report<'_>,
    shown: &[Shown],
) -> Result<(), AllocError>
    requires { 0 < report.now.rate }
{
    push_columns(out)?;
    for (node, own) in report.nodes.iter().zip(shown.iter()) {
        if *own == Shown::Listed {
            push_row(alloc, out, node, report.rate)?;
        }
    }
    Ok(())
}
