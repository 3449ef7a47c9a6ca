//! Reports to begin with.

ghost use Rattle.std.specs.Prelude.{◌≡◌, ◌<◌, IfOk, length};

use pdh_report::{Found, FoundLevel, NodeReport, Report, is_healthy};
use pdh_report_text::{Outcome, Remarks, outcome_text};
use std::alloc::{AllocError, Global};

/// A node on which nothing happened.
pub fn quiet<'a>(node: &'a str, level: &'a str, frames: u64) -> NodeReport<'a> {
    NodeReport {
        node,
        level,
        frames,
        aligned: 1,
        lost: 0,
        bad: 0,
        out_bits: 0,
        out_longest_bits: 0,
        ais: 0,
        ais_bits: 0,
        alarm: 0,
        alarm_bits: 0,
        parity: 0,
        path_parity: 0,
        febe: 0,
        feac: 0,
        crc: 0,
        ebit: 0,
        errored_blocks: 0,
        es: 0,
        ses: 0,
        uas: None,
        far_es: 0,
        too_short: false,
    }
}

/// A list of one node.
pub fn alone<'a>(alloc: Global, node: NodeReport<'a>) -> Result<Vec<NodeReport<'a>>, AllocError>
    ensures { IfOk result (λ list. length list.items ≡ 1) }
{
    let mut list = Vec::new(alloc);
    list.push(node)?;
    Ok(list)
}

/// Nothing beside the table.
pub fn no_remarks() -> Remarks<'static> {
    Remarks {
        alike: false,
        hint: None,
        events: None,
        codes: &[],
        more_codes: 0,
        all: false,
    }
}

/// By what a chain was found, of which so many levels were.
pub fn found(
    alloc: Global,
    part_bits: u64,
    levels: &[&'static str],
) -> Result<Found<'static>, AllocError> {
    let mut all = Vec::new(alloc);
    for level in levels {
        all.push(FoundLevel {
            level,
            nodes: 1,
            stand: 1,
            judged: 100,
            right: 100,
        })?;
    }
    Ok(Found {
        part_bits,
        levels: all,
        also: Vec::new(alloc),
    })
}

/// A report of a chain with these nodes, whose top has so many bits a second, over a second of it.
pub fn report<'a>(
    chain: &'a str,
    rate: u64,
    found: Option<Found<'a>>,
    nodes: Vec<NodeReport<'a>>,
) -> Report<'a>
    ensures rate { result.rate ≡ rate }
    ensures nodes { result.nodes ≡ nodes.entry }
{
    Report {
        pdhreport: "0.1.0",
        file: "x.bits",
        from: 0,
        bits: rate,
        rate,
        chain,
        lsb_first: false,
        inverted: false,
        found,
        healthy: is_healthy(&nodes),
        events: 0,
        nodes,
    }
}

/// The text of a report.
pub fn text_of(
    alloc: Global,
    report: &Report<'_>,
    remarks: &Remarks<'_>,
) -> Result<String, AllocError>
    requires { 0 < report.now.rate }
{
    outcome_text(alloc, &Outcome::Read { report, remarks })
}
