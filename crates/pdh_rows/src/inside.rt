//! Whether a store surely stays away from both its ends over some frames, row by row, by the bits that arrive in them.

ghost use Rattle.std.specs.Prelude.{◌≡◌, ◌≤◌, ◌<◌, ◌-◌, true, IfSome};
ghost use Rattle.pdh_line.specs.Tolerance.{StaysInside};
ghost use Rattle.pdh_rows.specs.Flows.{KeepsStep, FlowFits, flow_count};
ghost use Rattle.pdh_rows.specs.Inside.{FillPasses, FillsPass, FillsPassAll, FillsPassSteps};
ghost use Rattle.pdh_rows.specs.Rows.{node_frame_count, node_counts};
ghost use Rattle.pdh_rows.specs.Stored.{IsTable, rows_of};

use crate::flow::Flow;
use crate::table::{Table, TribRow, row_with};

// Between these numbers the fill at a frame's start is away from both ends of a store.
const LEAST_FILL: u64 = 4;

const MOST_FILL: u64 = pdh_shape::STORE_SIZE as u64 - 7;

// The fill from which a frame carries an additional bit.
const THRESHOLD: u64 = pdh_shape::THRESHOLD as u64;

// Between which numbers the fill of a store is at a frame's start.
#[derive(Clone, Copy)]
struct Fills {
    least: u64,
    most: u64,
}

// The fill at the end of a frame in which so many bits arrive, by the fill at its start, if the store surely stays inside.
fn fill_behind(low: u32, count: u32, fill: u64) -> Option<u64>
    ensures { IfSome result (FillPasses low count fill) }
{
    if fill < LEAST_FILL || fill > MOST_FILL {
        return None;
    }
    let (low, arrived) = (u64::from(low), fill + u64::from(count));
    if arrived < low + LEAST_FILL || arrived > low + 1 + MOST_FILL {
        return None;
    }
    if fill >= THRESHOLD {
        return Some(arrived - (low + 1));
    }
    Some(arrived - low)
}

impl Fills {
    // Those at the end of a frame in which so many bits arrive, if the store surely stays inside.
    fn behind_frame(self, low: u32, count: u32) -> Option<Fills>
        ensures { IfSome result (FillsPass low count self) }
    {
        let least = fill_behind(low, count, self.least)?;
        let most = fill_behind(low, count, self.most)?;
        Some(Fills { least, most })
    }

    // Those behind any number of frames in step, if the store surely stays inside: a fill below the threshold may rise to it, and any
    // other fall to just below it.
    fn behind_steps(self) -> Option<Fills>
        ensures { IfSome result (FillsPassSteps self) }
    {
        if self.least < LEAST_FILL || self.most > MOST_FILL {
            return None;
        }
        Some(Fills {
            least: self.least.min(THRESHOLD - 1),
            most: self.most.max(THRESHOLD),
        })
    }

    // Those behind some frames of a row, from one of them up to but without another, if the store surely stays inside.
    fn behind_frames(self, low: u32, row: &TribRow, first: u64, end: u64) -> Option<Fills>
        requires fits { FlowFits row.now.frames row.now.flow }
        requires order { first ≤ end }
        requires inside { end ≤ row.now.frames }
        ensures { IfSome result (FillsPassAll low (flow_count row.now.flow) first (end - first) self) }
    {
        if end - first > 1 && keeps_step(row.flow, row.frames, low) {
            return self.behind_steps();
        }
        let mut fills = self;
        for frame in first..end {
            fills = fills.behind_frame(low, row.flow.count(frame))?;
        }
        Some(fills)
    }
}

// Whether a flow brings `low` bits or one more in each of its frames.
fn keeps_step(flow: Flow, repeat: u32, low: u32) -> bool
    requires fits { FlowFits repeat flow }
    ensures { result ≡ true → KeepsStep low flow }
{
    let least = u128::from(low) * flow.frames;
    if flow.bits < least {
        return false;
    }
    flow.bits <= least + flow.frames
}

/// Whether a tributary's store, which holds so many bits at the start of frame `first`, surely stays away from both its ends up to the
/// start of frame `end`, where each frame carries `low` bits of the tributary or one more.
pub fn stays_inside(table: &Table, trib: usize, low: u32, fill: u64, first: u64, end: u64) -> bool
    requires table { IsTable table.now }
    requires in_range { trib < table.now.tribs }
    requires scheduled { end ≤ node_frame_count (rows_of table.now) }
    ensures { result ≡ true → StaysInside low (node_counts (rows_of table.now) trib) first fill (end - first) }
{
    if first >= end {
        return true;
    }
    let mut fills = Fills {
        least: fill,
        most: fill,
    };
    let mut at = first;
    for number in row_with(&table.firsts, first)..table.repeats.len() {
        if at >= end {
            return true;
        }
        let row = table.trib_row(number, trib);
        let next = end.min(row.first + u64::from(row.frames));
        let Some(behind) = fills.behind_frames(low, &row, at - row.first, next - row.first) else {
            return false;
        };
        fills = behind;
        at = next;
    }
    true
}
