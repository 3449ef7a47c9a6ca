//! What callers may rely on of the rows of a node, of its tolerance, and of stores that stay away from their ends.

ghost use Rattle.std.specs.Prelude.{◌≡◌, ◌<◌, ◌≤◌, ◌+◌, ◌^◌, true, [], ◌∷◌, Some};
ghost use Rattle.pdh_rows.specs.Outside.{run_in};
ghost use Rattle.pdh_rows.specs.Rows.{node_counts, node_frame_count};
ghost use Rattle.pdh_rows.specs.Stored.{IsTable, rows_of, node_row, flow_row};

use pdh_rows::{Flow, Outside, Says, Table, stays_inside, within_tolerance};

/// A row's flow begins with its own first frame: of a bit in two frames none arrives in the first of them.
#[tactic(auto, unfolding(pdh_rows::specs::Rows::node_frames))]
pub fn counts_from_the_first_row(table: &Table) -> u32
    requires table { IsTable table.now }
    requires tribs { table.now.tribs ≡ 1 }
    requires rows { rows_of table.now ≡ node_row 1 (0 ∷ []) ∷ flow_row 2 (record { bits = 1; frames = 2 } ∷ []) ∷ [] }
    ensures { result ≡ 0 }
{
    table.count(1, 0)
}

/// Whole bits arrive as their time comes: three bits in two frames are all there after these.
pub fn floor_of_each_frame() -> u128
    ensures { result ≡ 3 }
{
    let flow = Flow { bits: 3, frames: 2 };
    flow.arrived(2)
}

/// A line that is 30 parts per million fast has the frames of its rate, by the nominal one.
pub fn flow_of_the_nominal_line(number: u32) -> Flow
    ensures { result.frames ≡ 4000120 }
{
    let says = Says::Rates { line: 1_000_030 };
    says.flow(Flow { bits: 1, frames: 4 }, number)
}

/// Where a store surely stays inside over a frame, its bits and those that arrive pass what the frame takes at most by 89 at most.
pub fn frame_with_a_bit_too_many_stays_inside(
    table: &Table,
    trib: usize,
    low: u32,
    fill: u64,
    frame: u64,
) -> bool
    requires table { IsTable table.now }
    requires in_range { trib < table.now.tribs }
    requires scheduled { frame + 1 ≤ node_frame_count (rows_of table.now) }
    requires few { frame + 1 < 2 ^ 64 }
    ensures { result ≡ true → fill + node_counts (rows_of table.now) trib frame ≤ low + 1 + 89 }
{
    stays_inside(table, trib, low, fill, frame, frame + 1)
}

/// A store that surely stays inside over a frame holds at least four bits before it.
pub fn nearly_empty_store_stays_inside(
    table: &Table,
    trib: usize,
    low: u32,
    fill: u64,
    frame: u64,
) -> bool
    requires table { IsTable table.now }
    requires in_range { trib < table.now.tribs }
    requires scheduled { frame + 1 ≤ node_frame_count (rows_of table.now) }
    requires few { frame + 1 < 2 ^ 64 }
    ensures { result ≡ true → 4 ≤ fill }
{
    stays_inside(table, trib, low, fill, frame, frame + 1)
}

/// Each row has its own rates: of a bit in four frames none arrives in the second of them, whatever the row before says.
#[tactic(auto, unfolding(pdh_rows::specs::Rows::node_frames))]
pub fn offset_of_the_line_before(table: &Table) -> u32
    requires table { IsTable table.now }
    requires tribs { table.now.tribs ≡ 1 }
    requires rows { rows_of table.now ≡ flow_row 1 (record { bits = 1; frames = 2 } ∷ []) ∷ flow_row 4 (record { bits = 1; frames = 4 } ∷ []) ∷ [] }
    ensures { result ≡ 0 }
{
    table.count(2, 0)
}

/// The first frame is one of the first row.
#[tactic(auto, unfolding(pdh_rows::specs::Rows::node_frames))]
pub fn takes_the_row_after(table: &Table) -> u32
    requires table { IsTable table.now }
    requires tribs { table.now.tribs ≡ 1 }
    requires rows { rows_of table.now ≡ node_row 1 (5 ∷ []) ∷ node_row 1 (7 ∷ []) ∷ [] }
    ensures { result ≡ 5 }
{
    table.count(0, 0)
}

/// A run that breaks the tolerance may end inside a row: it ends with the first frame in which 205 bits are missed.
#[tactic(auto, unfolding(pdh_rows::specs::Rows::node_frames, pdh_rows::specs::Outside::first_outside))]
pub fn tolerance_at_row_ends_alone(table: &Table) -> Result<(), Outside>
    requires table { IsTable table.now }
    requires tribs { table.now.tribs ≡ 1 }
    requires rows { rows_of table.now ≡ node_row 3 (0 ∷ []) ∷ [] }
    ensures { run_in result ≡ Some (record { from = 0; to = 1; sum = 0 }) }
{
    within_tolerance(table, 0, 205)
}

/// The bits of the first frames are those of all their rows.
#[tactic(auto, unfolding(pdh_rows::specs::Rows::node_frames, pdh_line::specs::Progress::arrived))]
pub fn total_without_the_rows_before(table: &Table) -> u64
    requires table { IsTable table.now }
    requires tribs { table.now.tribs ≡ 1 }
    requires rows { rows_of table.now ≡ node_row 1 (5 ∷ []) ∷ node_row 1 (7 ∷ []) ∷ [] }
    ensures { result ≡ 12 }
{
    table.total(2, 0)
}

/// The allowance is 18 bits: a frame of 206 bits at most with 225 breaks the tolerance.
#[tactic(auto, unfolding(pdh_rows::specs::Rows::node_frames, pdh_rows::specs::Outside::first_outside))]
pub fn within_allows_one_bit_more(table: &Table) -> Result<(), Outside>
    requires table { IsTable table.now }
    requires tribs { table.now.tribs ≡ 1 }
    requires rows { rows_of table.now ≡ node_row 1 (225 ∷ []) ∷ [] }
    ensures { run_in result ≡ Some (record { from = 0; to = 1; sum = 225 }) }
{
    within_tolerance(table, 0, 205)
}

/// Too many bits break the tolerance as too few do.
#[tactic(auto, unfolding(pdh_rows::specs::Rows::node_frames, pdh_rows::specs::Outside::first_outside))]
pub fn within_forgets_the_upper_side(table: &Table) -> Result<(), Outside>
    requires table { IsTable table.now }
    requires tribs { table.now.tribs ≡ 1 }
    requires rows { rows_of table.now ≡ node_row 1 (800 ∷ []) ∷ [] }
    ensures { run_in result ≡ Some (record { from = 0; to = 1; sum = 800 }) }
{
    within_tolerance(table, 0, 205)
}

/// Of two runs that break the tolerance, each in its way, the one is told that ends first.
#[tactic(auto, unfolding(pdh_rows::specs::Rows::node_frames, pdh_rows::specs::Outside::first_outside))]
pub fn within_reports_a_later_run(table: &Table) -> Result<(), Outside>
    requires table { IsTable table.now }
    requires tribs { table.now.tribs ≡ 1 }
    requires rows { rows_of table.now ≡ node_row 1 (800 ∷ []) ∷ node_row 1 (0 ∷ []) ∷ [] }
    ensures { run_in result ≡ Some (record { from = 0; to = 1; sum = 800 }) }
{
    within_tolerance(table, 0, 205)
}
