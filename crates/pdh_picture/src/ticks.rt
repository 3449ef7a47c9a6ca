//! Bands, ticks and diamonds: what the lanes of a row show.

ghost use Rattle.std.specs.Prelude.{◌≡◌, ◌+◌, ◌<◌, ◌≤◌, ◌^◌, length};
ghost use Rattle.pdh_picture.specs.Ticks.{class_of, height_of};

use crate::grid::{CELLS, Grid};
use crate::runs::{Run, next_run};
use pdh_report_text::{Code, clock_time};
use std::alloc::{AllocError, Global};

/// Where the plot begins, in pixels.
pub const LEFT: usize = 92;

/// How wide a cell is, in pixels.
pub const CELL: usize = 2;

// How many cells there are at least from a diamond to the next.
const APART: usize = 5;

/// A lane of a row, and what it shows.
#[derive(Clone, Copy)]
pub struct Band<'a> {
    /// The path of the node.
    pub path: &'a str,
    /// Its upper edge.
    pub top: u64,
    /// Its height.
    pub height: u64,
    /// Its colour.
    pub fill: &'a str,
    /// What it shows, as `AIS`.
    pub what: &'a str,
}

// Appends the times at which a run begins and ends, as ` 0.1 s to 0.2 s`.
fn push_times(alloc: Global, out: &mut String, grid: &Grid, run: Run) -> Result<(), AllocError>
    requires order { run.start ≤ run.end }
    requires within { run.end ≤ CELLS }
{
    let first = clock_time(alloc, grid.start(run.start), grid.rate)?;
    let last = clock_time(alloc, grid.start(run.end), grid.rate)?;
    write!(out, "{first} s to {last} s</title></rect>\n")
}

// Appends where a run is drawn, from an edge down, and its colour.
fn push_edges(
    out: &mut String,
    run: Run,
    top: u64,
    height: u64,
    fill: &str,
) -> Result<(), AllocError>
    requires order { run.start ≤ run.end }
    requires within { run.end ≤ CELLS }
{
    let x = LEFT + CELL * run.start;
    let width = CELL * (run.end - run.start);
    write!(
        out,
        "<rect x=\"{x}\" y=\"{top}\" width=\"{width}\" height=\"{height}\" fill=\"{fill}\">"
    )
}

/// Appends the cells of a state.
pub fn push_band(
    alloc: Global,
    out: &mut String,
    grid: &Grid,
    cells: &[bool; CELLS],
    band: Band<'_>,
) -> Result<(), AllocError> {
    let classes = cells.map(u8::from);
    let path = band.path;
    let what = band.what;
    let mut from = 0;
    while let Some(run) = next_run(classes.as_slice(), from) {
        push_edges(out, run, band.top, band.height, band.fill)?;
        write!(out, "<title>{path} {what}, ")?;
        push_times(alloc, out, grid, run)?;
        from = run.end;
    }
    Ok(())
}

// The class of a count: none, one, two to nine, ten to 99, or more.
fn class(count: u64) -> u8
    ensures class { result ≡ class_of count }
    ensures within { result ≤ 4 }
{
    match count {
        0 => 0,
        1 => 1,
        2..=9 => 2,
        10..=99 => 3,
        _ => 4,
    }
}

// The height of a tick of a class in a lane: a half, two thirds, five sixths or all of it.
fn tick_height(lane: u64, class: u8) -> u64
    requires lane { lane < 2 ^ 33 }
    requires class { class ≤ 4 }
    ensures height { result ≡ height_of lane class }
    ensures within { result ≤ lane }
{
    (lane * (u64::from(class) + 2)).div_ceil(6)
}

/// The events of some cells, or the most that fit.
pub fn events(counts: &[u64]) -> u64 {
    let mut all = 0u64;
    for count in counts {
        all = all.saturating_add(*count);
    }
    all
}

/// Appends the ticks of a lane, which stand up in it or hang down.
pub fn push_ticks(
    alloc: Global,
    out: &mut String,
    grid: &Grid,
    counts: &[u64; CELLS],
    lane: Band<'_>,
    up: bool,
) -> Result<(), AllocError>
    requires { lane.top + lane.height < 2 ^ 33 }
{
    let classes = counts.map(class);
    let path = lane.path;
    let what = lane.what;
    let mut from = 0;
    while let Some(run) = next_run(classes.as_slice(), from) {
        let height = tick_height(lane.height, class(counts[run.start]));
        let above = if up { lane.height - height } else { 0 };
        push_edges(out, run, lane.top + above, height, lane.fill)?;
        let number = events(&counts[run.start..run.end]);
        let plural = if number == 1 { "" } else { "s" };
        write!(out, "<title>{path} {number} {what}{plural}, ")?;
        push_times(alloc, out, grid, run)?;
        from = run.end;
    }
    Ok(())
}

// Appends the diamond of a code in a cell, around a height.
fn push_code(
    alloc: Global,
    out: &mut String,
    code: &Code,
    cell: usize,
    path: &str,
    middle: u64,
    rate: u64,
) -> Result<(), AllocError>
    requires cell { cell < CELLS }
    requires middle { 5 ≤ middle }
    requires rate { 0 < rate }
{
    let x = LEFT + CELL * cell + 1;
    let y = middle - 5;
    let number = code.code;
    let time = clock_time(alloc, code.place, rate)?;
    write!(
        out,
        "<path d=\"M{x} {y}l4 5-4 5-4-5z\" fill=\"#ffffff\" stroke=\"#8a1253\" stroke-width=\"1.5\"><title>{path} FEAC code {number}, {time} s</title></path>\n"
    )
}

/// Appends the codes of a node around a height, but those that come too soon behind the one before.
pub fn push_codes(
    alloc: Global,
    out: &mut String,
    grid: &Grid,
    codes: &[Code],
    path: &str,
    middle: u64,
) -> Result<(), AllocError>
    requires { 5 ≤ middle }
{
    let mut free = 0;
    for code in codes {
        let cell = grid.cell(code.place.saturating_sub(grid.from));
        if cell >= free {
            push_code(alloc, out, code, cell, path, middle, grid.rate)?;
            free = cell + APART;
        }
    }
    Ok(())
}
