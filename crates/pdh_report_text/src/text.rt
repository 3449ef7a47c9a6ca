//! The whole text of a report.

ghost use Rattle.std.specs.Prelude.{◌<◌};

use crate::below::lines_below;
use crate::groups::push_groups;
use crate::head::push_head;
use crate::listing::{Shown, listing};
use crate::remarks::Remarks;
use crate::table::push_table;
use pdh_report::Report;
use std::alloc::{AllocError, Global};

/// The text of a report, with what stands beside the table; or the refusal of memory.
pub fn report_text(
    alloc: Global,
    report: &Report<'_>,
    remarks: &Remarks<'_>,
) -> Result<String, AllocError>
    requires { 0 < report.now.rate }
{
    let mut out = String::new(alloc);
    push_head(alloc, &mut out, report, remarks)?;
    out.push('\n')?;
    let nodes = report.nodes.as_slice();
    let shown = listing(alloc, nodes, remarks.all)?;
    push_table(alloc, &mut out, report, &shown)?;
    let kinds = [Shown::More, Shown::TooShort, Shown::Fine];
    for kind in kinds.iter() {
        push_groups(alloc, &mut out, nodes, &shown, *kind, report.rate)?;
    }
    let lines = lines_below(alloc, report, remarks)?;
    if !lines.is_empty() {
        out.push('\n')?;
        out.push_str(lines.as_str())?;
    }
    Ok(out)
}
