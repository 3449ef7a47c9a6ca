//! The whole picture.

ghost use Rattle.std.specs.Prelude.{◌<◌, ◌≤◌, ◌+◌, ◌*◌, ◌^◌, length};

use crate::frame::{push_legend, push_start};
use crate::grid::Grid;
use crate::heading::push_heading;
use crate::lanes::Lanes;
use crate::row::{Row, push_row, steps};
use crate::scale::push_scale;
use crate::sizes::sizes_of;
use pdh_report::{NodeReport, Report};
use std::alloc::{AllocError, Global};

// Where the rows begin.
const TOP: u64 = 118;

// What stands below them.
const BELOW: u64 = 34;

// How many rows need no lines between the groups of nodes.
const FEW_ROWS: usize = 9;

// The lower edge of the rows.
fn base(nodes: &[NodeReport<'_>]) -> u64
    requires { length nodes.now < 2 ^ 16 }
    ensures { result < 2 ^ 24 + 118 }
{
    let mut y = TOP;
    for node in nodes {
        y += sizes_of(node.level, nodes.len()).height;
    }
    y
}

// Appends the rows, as far as there are lanes.
fn push_rows(
    alloc: Global,
    out: &mut String,
    grid: &Grid,
    nodes: &[NodeReport<'_>],
    lanes: &[Lanes<'_>],
) -> Result<(), AllocError>
    requires { length nodes.now < 2 ^ 16 }
{
    let mut y = TOP;
    for (index, node) in nodes.iter().enumerate() {
        let Some(own) = lanes.get(index) else {
            return Ok(());
        };
        let sizes = sizes_of(node.level, nodes.len());
        let is_ruled = index > 0 && steps(node.node) < 2 && nodes.len() > FEW_ROWS;
        let row = Row {
            node,
            lanes: own,
            sizes,
            y,
        };
        push_row(alloc, out, grid, &row, is_ruled)?;
        y += sizes.height;
    }
    Ok(())
}

/// The picture of a recording as SVG, with a row for each node, of which these are the lanes in the same order; or the refusal of
/// memory. The places of nodes behind the last lanes stay empty.
pub fn draw(alloc: Global, report: &Report<'_>, lanes: &[Lanes<'_>]) -> Result<String, AllocError>
    requires rate { 0 < report.now.rate }
    requires rows { length report.now.nodes.items < 2 ^ 16 }
{
    let nodes = report.nodes.as_slice();
    let mut out = String::new(alloc);
    let grid = Grid::new(report.bits, report.from, report.rate);
    let base = base(nodes);
    push_start(&mut out, report, base + BELOW)?;
    push_heading(alloc, &mut out, report)?;
    push_legend(&mut out)?;
    push_scale(alloc, &mut out, &grid, TOP, base)?;
    push_rows(alloc, &mut out, &grid, nodes, lanes)?;
    out.push_str("</svg>\n")?;
    Ok(out)
}
