//! What was found, as a report has it.

ghost use Rattle.std.specs.Prelude.{◌≡◌, length, IfOk};
ghost use Rattle.pdh_reporting.specs.Reports.{Tells, AreTold};

use crate::nodes::NodeName;
use pdh_health::NodeHealth;
use pdh_looking::Found as FoundLine;
use pdh_readings::BitOrder;
use pdh_report::{Found, FoundLevel, NodeReport, Reading};
use std::alloc::{AllocError, Global};

/// An order of bits.
pub(crate) fn reading_of(order: BitOrder) -> Reading {
    Reading {
        lsb_first: order.lsb_first,
        inverted: order.inverted,
    }
}

/// By what a chain was found, in a part of so many bits; or the refusal of memory.
pub(crate) fn found_of(
    alloc: Global,
    found: &FoundLine,
    part_bits: u64,
) -> Result<Found<'static>, AllocError> {
    let mut levels = Vec::with_capacity(alloc, found.levels.len())?;
    for level in &found.levels {
        levels.push(FoundLevel {
            level: level.level.name(),
            nodes: level.nodes,
            stand: level.stand,
            judged: level.judged,
            right: level.right,
        })?;
    }
    let mut also = Vec::with_capacity(alloc, found.also.len())?;
    for order in &found.also {
        also.push(reading_of(*order))?;
    }
    Ok(Found {
        part_bits,
        levels,
        also,
    })
}

// In how many seconds unavailable ones can be told.
const LEAST_SECONDS: u64 = 10;

// What is reported of a node.
fn node_report<'n>(name: &'n NodeName, health: &NodeHealth) -> NodeReport<'n>
    ensures { Tells health.now result }
{
    let counts = health.counts;
    let course = &health.course;
    let seconds = course.seconds;
    NodeReport {
        node: name.text.as_str(),
        level: name.level,
        frames: health.frames,
        aligned: counts.aligned,
        lost: counts.lost,
        bad: health.bad,
        out_bits: course.out.bits,
        out_longest_bits: course.out.longest,
        ais: counts.ais,
        ais_bits: course.ais.bits,
        alarm: counts.alarm,
        alarm_bits: course.alarm.bits,
        parity: counts.parity,
        path_parity: counts.path_parity,
        febe: counts.febe,
        feac: counts.feac,
        crc: counts.crc,
        ebit: counts.ebit,
        errored_blocks: course.errored_blocks,
        es: seconds.errored,
        ses: seconds.severe,
        uas: (seconds.seconds >= LEAST_SECONDS).then_some(seconds.unavailable),
        far_es: seconds.far,
        too_short: health.too_short,
    }
}

/// What is reported of nodes with these names, in their order; or the refusal of memory.
pub(crate) fn reports_of<'n>(
    alloc: Global,
    names: &'n [NodeName],
    nodes: &[NodeHealth],
) -> Result<Vec<NodeReport<'n>>, AllocError>
    requires { length names.now ≡ length nodes.now }
    ensures { IfOk result (λ reports. AreTold nodes.now reports.items) }
{
    let mut reports = Vec::with_capacity(alloc, nodes.len())?;
    for (index, node) in nodes.iter().enumerate() {
        reports.push(node_report(&names[index], node))?;
    }
    Ok(reports)
}
