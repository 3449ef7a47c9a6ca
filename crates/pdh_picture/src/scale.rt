//! The scale of a picture.

ghost use Rattle.std.specs.Prelude.{◌≡◌, ◌+◌, ◌<◌, ◌≤◌, ◌*◌, ◌^◌, nat_le, IfSome};
ghost use Rattle.std.specs.List.{find};
ghost use Rattle.pdh_picture.specs.Steps.{step_of};

use crate::grid::Grid;
use crate::ticks::LEFT;
use std::alloc::{AllocError, Global};

// How wide the plot is, in pixels.
const PLOT: u128 = 860;

// The steps of the scale in microseconds: 1, 2 and 5 times powers of ten up to 5 s, and then round numbers of seconds, minutes
// and hours.
#[rattlefmt::skip]
const STEPS: [u128; 34] = [
    1, 2, 5, 10, 20, 50, 100, 200, 500,
    1_000, 2_000, 5_000, 10_000, 20_000, 50_000, 100_000, 200_000, 500_000,
    1_000_000, 2_000_000, 5_000_000, 10_000_000, 20_000_000, 30_000_000,
    60_000_000, 120_000_000, 300_000_000, 600_000_000, 1_200_000_000, 1_800_000_000,
    3_600_000_000, 7_200_000_000, 14_400_000_000, 43_200_000_000,
];

// A day in microseconds.
const DAY: u128 = 86_400_000_000;

// How many steps a picture has at most.
const MOST_STEPS: u128 = 10;

// And how many lines, from the first step's beginning to the last one's end.
const MOST_LINES: u64 = 11;

// The first of some steps that is long enough.
fn first_step(steps: &[u128], least: u128) -> Option<u128>
    ensures { result ≡ find (λ step. nat_le least step) steps.now }
{
    steps.iter().copied().find(|step| least <= *step)
}

// The step of a picture that shows so many microseconds: the first that is long enough, or else a whole number of days.
fn step(us: u128) -> u128
    requires { us < 2 ^ 100 }
    ensures exact { result ≡ step_of STEPS us }
    ensures some { 0 < result }
    ensures enough { us ≤ MOST_STEPS * result }
{
    let least = us.div_ceil(MOST_STEPS).max(1);
    match first_step(&STEPS, least) {
        Some(step) => step,
        None => least.div_ceil(DAY) * DAY,
    }
}

// The text of a time of the scale.
fn label(alloc: Global, us: u128, step: u128) -> Result<String, AllocError> {
    if step < 1000 {
        return format!(in alloc; "{us} us");
    }
    if step < 1_000_000 {
        let ms = us / 1000;
        return format!(in alloc; "{ms} ms");
    }
    let seconds = us / 1_000_000;
    if step < 30_000_000 && seconds < 600 {
        return format!(in alloc; "{seconds} s");
    }
    let hours = seconds / 3600;
    let minutes = seconds / 60 % 60;
    let rest = seconds % 60;
    format!(in alloc; "{hours}:{minutes:02}:{rest:02}")
}

// Appends a line of the scale with its time above and below.
fn push_line(out: &mut String, x: u64, text: &str, top: u64, base: u64) -> Result<(), AllocError>
    requires top { 9 ≤ top }
    requires base { base < 2 ^ 32 }
{
    let upper = top - 5;
    let lower = base + 5;
    write!(
        out,
        "<path d=\"M{x}.5 {upper}V{lower}\" stroke=\"#dddddd\"/>\n"
    )?;
    let above = top - 9;
    write!(
        out,
        "<text x=\"{x}\" y=\"{above}\" font-size=\"10\" fill=\"#555555\" text-anchor=\"middle\">{text}</text>\n"
    )?;
    let below = base + 17;
    write!(
        out,
        "<text x=\"{x}\" y=\"{below}\" font-size=\"10\" fill=\"#555555\" text-anchor=\"middle\">{text}</text>\n"
    )
}

// Where a time of the scale is drawn, if the recording has its bit.
fn place(grid: &Grid, us: u128) -> Option<u64>
    ensures { IfSome result (λ x. (LEFT ≤ x) × (x ≤ LEFT + PLOT)) }
{
    let bit = us.checked_mul(u128::from(grid.rate))?.div_ceil(1_000_000);
    let own = bit.checked_sub(u128::from(grid.from))?;
    let all = u128::from(grid.bits);
    if own > all {
        return None;
    }
    let x = own * PLOT / all.max(1);
    Some(LEFT as u64 + x as u64)
}

/// Appends the scale, with lines from above the rows to below them.
pub fn push_scale(
    alloc: Global,
    out: &mut String,
    grid: &Grid,
    top: u64,
    base: u64,
) -> Result<(), AllocError>
    requires top { 9 ≤ top }
    requires base { base < 2 ^ 32 }
{
    let rate = u128::from(grid.rate);
    let step = step(u128::from(grid.bits) * 1_000_000 / rate);
    let before = (u128::from(grid.from) * 1_000_000).div_ceil(rate);
    let first = before.div_ceil(step);
    for number in 0..MOST_LINES {
        let us = first
            .saturating_add(u128::from(number))
            .saturating_mul(step);
        if let Some(x) = place(grid, us) {
            let text = label(alloc, us, step)?;
            push_line(out, x, text.as_str(), top, base)?;
        }
    }
    Ok(())
}
