//! The row of a node.

ghost use Rattle.std.specs.Prelude.{◌+◌, ◌<◌, ◌≤◌, ◌^◌};
ghost use Rattle.pdh_picture.specs.Sizes.{AreApart, end_of};

use crate::grid::Grid;
use crate::lanes::Lanes;
use crate::remark::{events_remark, frames_remark};
use crate::sizes::{Lane, Sizes};
use crate::ticks::{Band, CELL, push_band, push_codes, push_ticks};
use pdh_report::NodeReport;
use std::alloc::{AllocError, Global};

// How far a second line of text stands below the first.
const NEXT_LINE: u64 = 14;

/// What is drawn in a row, and where.
#[derive(Clone, Copy)]
pub struct Row<'a> {
    /// What is reported of the node.
    pub node: &'a NodeReport<'a>,
    /// What is drawn beside that.
    pub lanes: &'a Lanes<'a>,
    /// How large the row is.
    pub sizes: Sizes,
    /// Its upper edge.
    pub y: u64,
    ghost below_heading: { 118 ≤ y },
    ghost bounded: { y < 2 ^ 32 },
    ghost apart: { AreApart sizes },
}

impl<'a> Row<'a> {
    // The lane of states, with what stands over it above and below.
    fn over_band(&self, fill: &'a str, what: &'a str) -> Band<'a> {
        let over = self.sizes.over;
        Band {
            path: self.node.node,
            top: self.y + self.sizes.state.top - over,
            height: self.sizes.state.height + 2 * over,
            fill,
            what,
        }
    }

    // A lane.
    fn band(&self, lane: Lane, fill: &'a str, what: &'a str) -> Band<'a>
        requires { end_of lane ≤ self.now.sizes.height }
        ensures { result.top + result.height ≤ self.now.y + self.now.sizes.height }
    {
        Band {
            path: self.node.node,
            top: self.y + lane.top,
            height: lane.height,
            fill,
            what,
        }
    }

    // The middle of its states.
    fn middle(&self) -> u64
        ensures { 5 ≤ result }
    {
        self.y + self.sizes.state.top + self.sizes.state.height / 2
    }

    // The base line of its text.
    fn base_line(&self) -> u64
        ensures { result < 2 ^ 33 }
    {
        let state = self.sizes.state;
        self.y + state.top + (state.height + self.sizes.font * 7 / 10 + 1) / 2
    }
}

// The steps of a path, as `2-3`, and 0 for the top.
fn push_steps(out: &mut String, path: &str) -> Result<(), AllocError> {
    if path == "/" {
        return out.push('0');
    }
    for (index, byte) in path.as_bytes().iter().enumerate() {
        match *byte {
            b'/' if index == 0 => {}
            b'/' => out.push('-')?,
            digit => out.push(char::from(digit))?,
        }
    }
    Ok(())
}

/// How many steps a path has.
pub fn steps(path: &str) -> usize {
    if path == "/" {
        return 0;
    }
    path.as_bytes().iter().filter(|byte| **byte == b'/').count()
}

// Appends the names of a row: its path, further right with each step up to eight, and its level.
fn push_names(out: &mut String, row: &Row<'_>) -> Result<(), AllocError> {
    let x = 10 + 8 * steps(row.node.node).min(8);
    let y = row.base_line();
    let font = row.sizes.font;
    let path = row.node.node;
    write!(
        out,
        "<text x=\"{x}\" y=\"{y}\" font-size=\"{font}\">{path}</text>\n"
    )?;
    let small = font - 1;
    let level = row.node.level;
    write!(
        out,
        "<text x=\"86\" y=\"{y}\" font-size=\"{small}\" fill=\"#555555\" text-anchor=\"end\">{level}</text>\n"
    )
}

// Appends what stands behind a row's states: aligned or not, not yet aligned, and the outline.
fn push_ground(out: &mut String, grid: &Grid, row: &Row<'_>) -> Result<(), AllocError> {
    let top = row.y + row.sizes.state.top;
    let height = row.sizes.state.height;
    let fill = if row.node.aligned > 0 {
        "#c9dff0"
    } else {
        "#ffffff"
    };
    write!(
        out,
        "<rect x=\"92\" y=\"{top}\" width=\"860\" height=\"{height}\" fill=\"{fill}\"/>\n"
    )?;
    let early = grid.cells_of_first(row.lanes.early_bits);
    if early > 1 {
        let width = CELL * early;
        let path = row.node.node;
        write!(
            out,
            "<rect x=\"92\" y=\"{top}\" width=\"{width}\" height=\"{height}\" fill=\"#ffffff\"><title>{path} not yet aligned</title></rect>\n"
        )?;
    }
    let less = height - 1;
    write!(
        out,
        "<rect x=\"92.5\" y=\"{top}.5\" width=\"859\" height=\"{less}\" fill=\"none\" stroke=\"#b0b0b0\"/>\n"
    )
}

// Appends a row's states.
fn push_states(
    alloc: Global,
    out: &mut String,
    grid: &Grid,
    row: &Row<'_>,
) -> Result<(), AllocError> {
    push_ground(out, grid, row)?;
    let outage = row.over_band("#202020", "out of alignment");
    push_band(alloc, out, grid, row.lanes.out, outage)?;
    let ais = row.over_band("url(#ais)", "AIS");
    push_band(alloc, out, grid, row.lanes.ais, ais)?;
    let alarm = row.band(row.sizes.alarm, "#0c6db5", "remote alarm");
    push_band(alloc, out, grid, row.lanes.alarm, alarm)
}

// Appends a row's errors and codes.
fn push_errors(
    alloc: Global,
    out: &mut String,
    grid: &Grid,
    row: &Row<'_>,
) -> Result<(), AllocError> {
    if row.sizes.near.height > 0 {
        let lane = row.band(row.sizes.near, "#000000", "errored block");
        push_ticks(alloc, out, grid, row.lanes.near, lane, true)?;
    }
    if row.sizes.far.height > 0 {
        let lane = row.band(row.sizes.far, "#8a1253", "far end error");
        push_ticks(alloc, out, grid, row.lanes.far, lane, false)?;
    }
    let codes = row.lanes.codes;
    push_codes(alloc, out, grid, codes, row.node.node, row.middle())
}

// Appends a line of text right of a row.
fn push_remark(out: &mut String, y: u64, font: u64, text: &str) -> Result<(), AllocError> {
    write!(
        out,
        "<text x=\"958\" y=\"{y}\" font-size=\"{font}\">{text}</text>\n"
    )
}

// Appends what stands right of a row: in one line, or in two where it is high enough for both.
fn push_remarks(alloc: Global, out: &mut String, row: &Row<'_>) -> Result<(), AllocError> {
    let y = row.base_line();
    let font = row.sizes.font - 1;
    let mut events = events_remark(alloc, row.node, row.lanes)?;
    let frames = frames_remark(alloc, row.node)?;
    let are_two = !events.is_empty() && !frames.is_empty();
    let has_room = row.sizes.near.height > 0;
    if are_two && has_room {
        push_remark(out, y, font, events.as_str())?;
        return push_remark(out, y + NEXT_LINE, font, frames.as_str());
    }
    if are_two {
        events.push_str(", ")?;
    }
    events.push_str(frames.as_str())?;
    push_remark(out, y, font, events.as_str())
}

/// Appends a row, with a line above it where a group of nodes begins.
pub fn push_row(
    alloc: Global,
    out: &mut String,
    grid: &Grid,
    row: &Row<'_>,
    is_ruled: bool,
) -> Result<(), AllocError> {
    out.push_str("<g id=\"n")?;
    push_steps(out, row.node.node)?;
    out.push_str("\">\n")?;
    if is_ruled {
        let y = row.y;
        write!(out, "<path d=\"M4 {y}.5H1056\" stroke=\"#b0b0b0\"/>\n")?;
    }
    push_names(out, row)?;
    push_states(alloc, out, grid, row)?;
    push_errors(alloc, out, grid, row)?;
    push_remarks(alloc, out, row)?;
    out.push_str("</g>\n")
}
