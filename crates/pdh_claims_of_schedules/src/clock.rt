//! What callers may rely on of schedules that are read, made, asked and written.

ghost use Rattle.std.specs.Prelude.{◌≡◌, ◌<◌, ◌≤◌, ◌+◌, ◌*◌, ◌==◌, if◌then◌else◌, ℕ, true, false, List, [], ◌∷◌, All, IfOk, IsErr, IsNone, IsSome, Err, None, length};
ghost use Rattle.std.specs.List.{slice_index_or};
ghost use Rattle.pdh_levels.specs.Levels.{AreLevels, level_at, nodes_in, numbers_of};
ghost use Rattle.pdh_line.specs.Nodes.{width};
ghost use Rattle.pdh_line.specs.Progress.{arrived};
ghost use Rattle.pdh_clock.specs.Begun.{frames_begun, shortage};
ghost use Rattle.pdh_clock.specs.Contents.{counts, frame_count, frames_of};
ghost use Rattle.pdh_clock.specs.Made.{IsRated};

use pdh_clock::{Bias, Schedule, ScheduleFault, Short};
use pdh_shape::{Level, TOP};
use std::alloc::Global;

/// A leaf enters a lead of 48 bits, and then what arrives in the frames that are begun.
pub fn entered_forgets_the_lead(
    schedule: &Schedule,
    level: Level,
    leaf: u32,
    top_frames: u64,
) -> (u64, u128)
    requires levels { schedule.now.levels ≡ record level { locked = false } ∷ [] }
    requires node { IsSome (level_at schedule.now.levels []) }
    requires leaf { leaf < width (numbers_of schedule.now.levels) }
    requires enough { IsNone (shortage schedule.now top_frames) }
    ensures { result.1 ≡ (if result.0 == 0 then 0 else 48 + arrived (counts schedule.now.rows [] leaf) result.0) }
{
    (
        schedule.begun(&TOP, top_frames),
        schedule.entered(leaf, top_frames),
    )
}

/// Of a locked chain of one level a leaf enters what its frames carry, and no lead.
pub fn locked_leaf_enters_a_lead(
    schedule: &Schedule,
    level: Level,
    leaf: u32,
    top_frames: u64,
) -> (u64, u128)
    requires levels { schedule.now.levels ≡ record level { locked = true } ∷ [] }
    requires node { IsSome (level_at schedule.now.levels []) }
    requires leaf { leaf < width (numbers_of schedule.now.levels) }
    requires enough { IsNone (shortage schedule.now top_frames) }
    ensures { result.1 ≡ result.0 * level.low }
{
    (
        schedule.begun(&TOP, top_frames),
        schedule.entered(leaf, top_frames),
    )
}

/// A row of a locked node has no counts.
#[tactic(auto, unfolding(pdh_clock::specs::Judged::schedule_of))]
pub fn locked_top_has_counts(alloc: Global, level: Level) -> Result<Schedule, ScheduleFault>
    requires levels { AreLevels (record level { locked = true; tribs = 4 } ∷ []) }
    requires rated { All IsRated (record level { locked = true; tribs = 4 } ∷ []) }
    ensures { IsErr result }
{
    let levels = [Level {
        locked: true,
        tribs: 4,
        ..level
    }];
    Schedule::read(alloc, &levels, b"/ 1 5 5 5 5")
}

/// Of mixed clocks that of a second tributary is slow.
pub fn mixed_even_tributaries_fast(height: usize) -> u32
    ensures { result ≡ 999950 }
{
    Bias::Mixed.offset(height, 2).scale(50)
}

/// All lines of a text count, those too that are passed over.
#[tactic(auto, unfolding(pdh_clock::specs::Judged::schedule_of))]
pub fn passed_over_lines_not_counted(
    alloc: Global,
    levels: &[Level],
) -> Result<Schedule, ScheduleFault>
    requires levels { AreLevels levels.now }
    requires rated { All IsRated levels.now }
    ensures { (line : ℕ) → result ≡ Err (ScheduleFault.BadRow line) → line ≡ 2 }
{
    Schedule::read(alloc, levels, b"#\nx")
}

/// A row is of as many frames as its repeat says.
#[tactic(auto, unfolding(pdh_clock::specs::Judged::schedule_of, pdh_clock::specs::Contents::frames_of))]
pub fn row_one_frame_short(alloc: Global, level: Level) -> Result<Schedule, ScheduleFault>
    requires levels { AreLevels (record level { locked = true; tribs = 4 } ∷ []) }
    requires rated { All IsRated (record level { locked = true; tribs = 4 } ∷ []) }
    ensures { IfOk result (λ schedule. frame_count schedule.rows [] ≡ 2) }
{
    let levels = [Level {
        locked: true,
        tribs: 4,
        ..level
    }];
    Schedule::read(alloc, &levels, b"/ 2")
}

/// A text says its version once: a second such line is a bad row.
#[tactic(auto, unfolding(pdh_clock::specs::Judged::schedule_of))]
pub fn second_version_line_is_passed_over(
    alloc: Global,
    levels: &[Level],
) -> Result<Schedule, ScheduleFault>
    requires levels { AreLevels levels.now }
    requires rated { All IsRated levels.now }
    ensures { IsErr result }
{
    Schedule::read(alloc, levels, b"version 2\nversion 2")
}

/// Where no node is told to have too few frames, each has as many as it begins.
pub fn short_leaves_out_the_last_node(schedule: &Schedule, top_frames: u64) -> Option<Short>
    requires { top_frames ≤ frame_count schedule.now.rows [] }
    ensures { result ≡ None → (k : ℕ) → k < length (nodes_in schedule.now.levels)
        → frames_begun schedule.now top_frames (slice_index_or (nodes_in schedule.now.levels) k [])
        ≤ frame_count schedule.now.rows (slice_index_or (nodes_in schedule.now.levels) k []) }
{
    schedule.short(top_frames)
}

/// A schedule that is written is read again with the same counts in the frames of each node.
pub fn text_joins_unequal_frames(
    alloc: Global,
    levels: &[Level],
    schedule: &Schedule,
) -> Result<Schedule, ScheduleFault>
    requires levels { AreLevels levels.now }
    requires rated { All IsRated levels.now }
    requires same { schedule.now.levels ≡ levels.now }
    requires few { (path : List ℕ) → IsSome (level_at levels.now path) → frame_count schedule.now.rows path ≤ 999999999 }
    ensures { IfOk result (λ again. (path : List ℕ) → IsSome (level_at levels.now path) → frames_of again.rows path ≡ frames_of schedule.now.rows path) }
{
    let text = schedule.text(alloc)?;
    Schedule::read(alloc, levels, &text)
}

/// A line that has not the form of a row is a bad row, whatever node it names.
#[tactic(auto, unfolding(pdh_clock::specs::Judged::schedule_of))]
pub fn unknown_node_before_form(alloc: Global, levels: &[Level]) -> Result<Schedule, ScheduleFault>
    requires levels { AreLevels levels.now }
    requires rated { All IsRated levels.now }
    ensures { (line : ℕ) → result ≡ Err (ScheduleFault.UnknownNode line) → ⊥ }
{
    Schedule::read(alloc, levels, b"/9/9 x")
}
