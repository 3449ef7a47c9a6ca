//! Whether the arrivals of a tributary are within the tolerance, row by row.

ghost use Rattle.std.specs.Prelude.{◌≡◌, ◌≤◌, ◌<◌, ◌+◌, ◌-◌, ◌*◌, ◌^◌, ℕ, [], length, slice_index, MatchOption};
ghost use Rattle.pdh_line.specs.Progress.{arrived};
ghost use Rattle.pdh_shape.specs.OwnNumbers.{allowance};
ghost use Rattle.pdh_rows.specs.Bounds.{gains_of, losses_of, gains, losses, Passes, AllKeep, IsFirstEnd, IsFirstStart, IsFirstBreak, flow_gains, flow_losses, earlier as earlier_of};
ghost use Rattle.pdh_rows.specs.Flows.{flowed, FlowFits, IsCross, NeverCross};
ghost use Rattle.pdh_rows.specs.Rows.{node_frame_count, node_counts};
ghost use Rattle.pdh_rows.specs.Outside.{first_outside, run_in};
ghost use Rattle.pdh_rows.specs.Stored.{IsTable, rows_of};

use crate::outside::Outside;
use crate::table::{Table, TribRow};

// The allowance, as a summand of the sums of a table.
const ALLOWANCE: u128 = pdh_shape::ALLOWANCE as u128;

// A bound of the tolerance: in a run of frames arrive no more bits than it carries at most, or no fewer than it carries at
// least, each up to the allowance.
#[derive(Clone, Copy)]
enum Bound {
    Most,
    Least,
}

// The two sums of a bound over a run of frames: what brings the run nearer to the bound, and what takes it away.
#[derive(Clone, Copy)]
struct Balance {
    gains: u128,
    losses: u128,
}

// A run of frames, from one up to but without the other.
#[derive(Clone, Copy)]
struct Span {
    from: u64,
    to: u64,
}

// The sums of so many frames, in which so many bits arrive.
fn balance_of(bound: Bound, low: u32, frames: u64, bits: u64) -> Balance
    ensures gains { result.gains ≡ gains_of bound low frames bits }
    ensures losses { result.losses ≡ losses_of bound low frames bits }
    ensures few_gains { result.gains ≤ 2 ^ 97 }
    ensures few_losses { result.losses ≤ 2 ^ 97 }
{
    let carried = u128::from(low) * u128::from(frames);
    match bound {
        Bound::Most => Balance {
            gains: u128::from(bits),
            losses: carried + u128::from(frames),
        },
        Bound::Least => Balance {
            gains: carried,
            losses: u128::from(bits),
        },
    }
}

// The least number of frames of a row after which its bits are above a line of so many bits a frame that begins a gap above.
fn rises_past(gap: u128, line: u128, row: &TribRow) -> Option<u64>
    requires fits { FlowFits row.now.frames row.now.flow }
    requires bits { row.now.bits ≡ flowed row.now.flow row.now.frames }
    requires gap { gap ≤ 2 ^ 99 }
    requires line { line ≤ 2 ^ 32 }
    ensures { MatchOption result (NeverCross gap (λ n. n * line) 0 (flowed row.now.flow) row.now.frames) (IsCross gap (λ n. n * line) 0 (flowed row.now.flow) row.now.frames) }
{
    if u128::from(row.bits) <= gap + u128::from(row.frames) * line {
        return None;
    }
    let flow = row.flow;
    let kept = (gap * flow.frames + (flow.frames - 1)) / (flow.bits - line * flow.frames);
    Some(kept as u64 + 1)
}

// The least number of frames of a row after which its bits are below a line of so many bits a frame that begins a gap below.
fn falls_past(gap: u128, line: u128, row: &TribRow) -> Option<u64>
    requires fits { FlowFits row.now.frames row.now.flow }
    requires bits { row.now.bits ≡ flowed row.now.flow row.now.frames }
    requires gap { gap ≤ 2 ^ 99 }
    requires line { line ≤ 2 ^ 32 }
    ensures { MatchOption result (NeverCross gap (flowed row.now.flow) 0 (λ n. n * line) row.now.frames) (IsCross gap (flowed row.now.flow) 0 (λ n. n * line) row.now.frames) }
{
    if u128::from(row.frames) * line <= gap + u128::from(row.bits) {
        return None;
    }
    let flow = row.flow;
    let kept = gap * flow.frames / (line * flow.frames - flow.bits);
    Some(kept as u64 + 1)
}

// The least number of frames of a row after which it gained more than it lost, by more than a gap.
fn gains_past(bound: Bound, low: u32, gap: u128, row: &TribRow) -> Option<u64>
    requires fits { FlowFits row.now.frames row.now.flow }
    requires bits { row.now.bits ≡ flowed row.now.flow row.now.frames }
    requires gap { gap ≤ 2 ^ 99 }
    ensures { MatchOption result
        (NeverCross gap (flow_losses bound low row.now.flow) 0 (flow_gains bound low row.now.flow) row.now.frames)
        (IsCross gap (flow_losses bound low row.now.flow) 0 (flow_gains bound low row.now.flow) row.now.frames) }
{
    match bound {
        Bound::Most => rises_past(gap, u128::from(low) + 1, row),
        Bound::Least => falls_past(gap, u128::from(low), row),
    }
}

// The least number of frames of a row after which it lost more than it gained, by more than a gap.
fn losses_past(bound: Bound, low: u32, gap: u128, row: &TribRow) -> Option<u64>
    requires fits { FlowFits row.now.frames row.now.flow }
    requires bits { row.now.bits ≡ flowed row.now.flow row.now.frames }
    requires gap { gap ≤ 2 ^ 99 }
    ensures { MatchOption result
        (NeverCross gap (flow_gains bound low row.now.flow) 0 (flow_losses bound low row.now.flow) row.now.frames)
        (IsCross gap (flow_gains bound low row.now.flow) 0 (flow_losses bound low row.now.flow) row.now.frames) }
{
    match bound {
        Bound::Most => falls_past(gap, u128::from(low) + 1, row),
        Bound::Least => rises_past(gap, u128::from(low), row),
    }
}

// A bound's rise is the most that a run which ends here gains more than it loses. This is the rise after a row.
fn rise_after(bound: Bound, low: u32, rise: u128, row: &TribRow) -> u128
    requires rise { rise ≤ allowance }
    requires bits { row.now.bits ≡ flowed row.now.flow row.now.frames }
    ensures { result ≡ rise + flow_gains bound low row.now.flow row.now.frames - flow_losses bound low row.now.flow row.now.frames }
{
    let balance = balance_of(bound, low, u64::from(row.frames), row.bits);
    (rise + balance.gains).saturating_sub(balance.losses)
}

// The least end of a run that passes the bound.
fn first_end(table: &Table, trib: usize, low: u32, bound: Bound) -> Option<u64>
    requires table { IsTable table.now }
    requires in_range { trib < table.now.tribs }
    ensures { MatchOption result
        (AllKeep (gains bound low (node_counts (rows_of table.now) trib)) (losses bound low (node_counts (rows_of table.now) trib)) (node_frame_count (rows_of table.now)))
        (IsFirstEnd (gains bound low (node_counts (rows_of table.now) trib)) (losses bound low (node_counts (rows_of table.now) trib)) (node_frame_count (rows_of table.now))) }
{
    let mut rise = 0;
    for number in 0..table.repeats.len() {
        let row = table.trib_row(number, trib);
        if let Some(frames) = gains_past(bound, low, ALLOWANCE - rise, &row) {
            return Some(row.first + frames);
        }
        rise = rise_after(bound, low, rise, &row);
    }
    None
}

// The least first frame of a run that ends there and passes the bound. Where such a run ends there is one.
fn first_start(table: &Table, trib: usize, low: u32, bound: Bound, to: u64) -> Option<u64>
    requires table { IsTable table.now }
    requires in_range { trib < table.now.tribs }
    requires end { IsFirstEnd (gains bound low (node_counts (rows_of table.now) trib)) (losses bound low (node_counts (rows_of table.now) trib)) (node_frame_count (rows_of table.now)) to }
    ensures { MatchOption result ⊥
        (IsFirstStart (gains bound low (node_counts (rows_of table.now) trib)) (losses bound low (node_counts (rows_of table.now) trib)) to) }
{
    let end = balance_of(bound, low, to, table.total(to, trib));
    for number in 0..table.repeats.len() {
        let row = table.trib_row(number, trib);
        let start = balance_of(bound, low, row.first, row.before);
        let lower = start.gains + end.losses + ALLOWANCE;
        let upper = start.losses + end.gains;
        if lower < upper {
            return Some(row.first);
        }
        if let Some(frames) = losses_past(bound, low, lower - upper, &row) {
            return Some(row.first + frames);
        }
    }
    None
}

// The first run that passes the bound: the one with the least end, and for it the least first frame.
fn first_break(table: &Table, trib: usize, low: u32, bound: Bound) -> Option<Span>
    requires table { IsTable table.now }
    requires in_range { trib < table.now.tribs }
    ensures { MatchOption result
        (AllKeep (gains bound low (node_counts (rows_of table.now) trib)) (losses bound low (node_counts (rows_of table.now) trib)) (node_frame_count (rows_of table.now)))
        (IsFirstBreak (gains bound low (node_counts (rows_of table.now) trib)) (losses bound low (node_counts (rows_of table.now) trib)) (node_frame_count (rows_of table.now))) }
{
    let to = first_end(table, trib, low, bound)?;
    let from = first_start(table, trib, low, bound, to)?;
    Some(Span { from, to })
}

// Of two runs the one that ends first, and of those that end together the one that begins first.
fn earlier(one: Option<Span>, other: Option<Span>) -> Option<Span>
    ensures { result ≡ earlier_of one other }
{
    match (one, other) {
        (Some(a), Some(b)) if b.to < a.to || (b.to == a.to && b.from < a.from) => Some(b),
        (None, _) => other,
        _ => one,
    }
}

/// Whether a tributary is within the tolerance, where each frame carries `low` bits or one more; else the first run of
/// frames that breaks it.
pub fn within_tolerance(table: &Table, trib: usize, low: u32) -> Result<(), Outside>
    requires table { IsTable table.now }
    requires in_range { trib < table.now.tribs }
    ensures { run_in result ≡ first_outside low (node_counts (rows_of table.now) trib) (node_frame_count (rows_of table.now)) }
{
    let most = first_break(table, trib, low, Bound::Most);
    let least = first_break(table, trib, low, Bound::Least);
    match earlier(most, least) {
        None => Ok(()),
        Some(span) => Err(Outside {
            from: span.from,
            to: span.to,
            sum: table.total(span.to, trib) - table.total(span.from, trib),
        }),
    }
}
