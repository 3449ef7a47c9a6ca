//! What stands right of a row.

use crate::lanes::Lanes;
use crate::ticks::events;
use pdh_report::NodeReport;
use std::alloc::{AllocError, Global};

// From this number on, thousands or millions are told.
const THOUSANDS: u64 = 10_000;

const MILLIONS: u64 = 10_000_000;

// Appends a count in few characters with what it counts, behind a comma where something stands already.
fn push_count(out: &mut String, count: u64, what: &str) -> Result<(), AllocError> {
    if count == 0 {
        return Ok(());
    }
    if !out.is_empty() {
        out.push_str(", ")?;
    }
    if count < THOUSANDS {
        return write!(out, "{count} {what}");
    }
    if count < MILLIONS {
        let thousands = count / 1000;
        return write!(out, "{thousands}k {what}");
    }
    let millions = count / 1_000_000;
    write!(out, "{millions}M {what}")
}

/// How often a node lost its alignment, or why that can't be told, and its errors: errored blocks, or where it has none those
/// that the far end told; or the refusal of memory.
pub fn events_remark(
    alloc: Global,
    node: &NodeReport<'_>,
    lanes: &Lanes<'_>,
) -> Result<String, AllocError> {
    let mut text = String::new(alloc);
    if node.lost > 0 {
        push_count(&mut text, node.lost, "lost")?;
    } else if node.too_short {
        text.push_str("too short")?;
    } else if node.aligned == 0 {
        text.push_str("never aligned")?;
    }
    if node.errored_blocks > 0 {
        push_count(&mut text, node.errored_blocks, "err")?;
    } else {
        let far = lanes.far;
        push_count(&mut text, events(far), "far")?;
    }
    Ok(text)
}

/// In how many frames of a node an alignment bit was wrong, or nothing; or the refusal of memory.
pub fn frames_remark(alloc: Global, node: &NodeReport<'_>) -> Result<String, AllocError> {
    let mut text = String::new(alloc);
    push_count(&mut text, node.bad, "bad")?;
    Ok(text)
}
