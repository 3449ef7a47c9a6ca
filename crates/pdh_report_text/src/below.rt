//! The lines below a report's table.

ghost use Rattle.std.specs.Prelude.{◌<◌};

use crate::numbers::{clock_time, grouped};
use crate::remarks::Remarks;
use pdh_report::{NodeReport, Report};
use std::alloc::{AllocError, Global};

// Appends the errors of the top's frames and blocks, if there are any.
fn push_errors(alloc: Global, out: &mut String, top: &NodeReport<'_>) -> Result<(), AllocError> {
    let errors = [
        ("parity", top.parity),
        ("path parity", top.path_parity),
        ("far end block errors", top.febe),
        ("CRC errors", top.crc),
        ("E bits", top.ebit),
    ];
    let mut is_first = true;
    for (name, number) in errors.iter() {
        if *number > 0 {
            let before = if is_first { "/: " } else { ", " };
            let number = grouped(alloc, *number)?;
            write!(out, "{before}{name} {number}")?;
            is_first = false;
        }
    }
    if !is_first {
        let frames = grouped(alloc, top.frames)?;
        write!(out, " in {frames} frames\n")?;
    }
    Ok(())
}

// Appends the first codes of the far end alarm and control channel, if there are any.
fn push_codes(
    alloc: Global,
    out: &mut String,
    remarks: &Remarks<'_>,
    rate: u64,
) -> Result<(), AllocError>
    requires { 0 < rate }
{
    if remarks.codes.is_empty() {
        return Ok(());
    }
    let mut before = "/: FEAC codes ";
    for code in remarks.codes {
        let number = code.code;
        let time = clock_time(alloc, code.place, rate)?;
        write!(out, "{before}{number} at {time} s")?;
        before = ", ";
    }
    if remarks.more_codes > 0 {
        let more = grouped(alloc, remarks.more_codes)?;
        write!(out, " and {more} more")?;
    }
    out.push('\n')
}

// Appends the places of the first and the last event, if there are any.
fn push_places(
    alloc: Global,
    out: &mut String,
    remarks: &Remarks<'_>,
    rate: u64,
) -> Result<(), AllocError>
    requires { 0 < rate }
{
    let Some((first, last)) = remarks.events else {
        return Ok(());
    };
    let kind = first.kind;
    let node = first.node;
    let bit = grouped(alloc, first.place)?;
    let time = clock_time(alloc, first.place, rate)?;
    write!(out, "first: {kind} of {node} at bit {bit}, {time} s; ")?;
    let kind = last.kind;
    let node = last.node;
    let time = clock_time(alloc, last.place, rate)?;
    write!(out, "last: {kind} of {node} at {time} s\n")
}

// Whether nodes of a level have no check of their payload.
fn is_unchecked(level: &str) -> bool {
    match level {
        "E2" | "E3" | "E4" | "DS2" => true,
        _ => false,
    }
}

// Appends what the columns can't tell.
fn push_limits(out: &mut String, nodes: &[NodeReport<'_>]) -> Result<(), AllocError> {
    if nodes.iter().any(|node| node.uas.is_none()) {
        out.push_str("UAS: none can be told in less than ten seconds\n")?;
    }
    if nodes.iter().any(|node| is_unchecked(node.level)) {
        out.push_str(
            "E2, E3, E4, DS2: their ES and SES are of losses and AIS alone; wrong alignment bits are in `bad`\n",
        )?;
    }
    Ok(())
}

/// The lines below the table: errors of the top, codes, the first and the last event, and what the columns can't tell; or the
/// refusal of memory.
pub fn lines_below(
    alloc: Global,
    report: &Report<'_>,
    remarks: &Remarks<'_>,
) -> Result<String, AllocError>
    requires { 0 < report.now.rate }
{
    let mut lines = String::new(alloc);
    if let Some(top) = report.nodes.first() {
        push_errors(alloc, &mut lines, top)?;
    }
    push_codes(alloc, &mut lines, remarks, report.rate)?;
    push_places(alloc, &mut lines, remarks, report.rate)?;
    push_limits(&mut lines, &report.nodes)?;
    Ok(lines)
}
