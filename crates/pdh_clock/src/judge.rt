//! The judgement of a line of a schedule.

ghost use Rattle.std.specs.Prelude.{◌≡◌, ◌+◌, ◌*◌, ◌≤◌, ◌<◌, ◌^◌, ℕ, List, ◌∷◌, length, nat_lt, find, IfOk, OnOk, All};
ghost use Rattle.pdh_clock.specs.Judged.{Gives, first_over, stores_judged, row_judged};
ghost use Rattle.pdh_row_text.specs.Parsed.{IsForm, form_found, numbers_found};
ghost use Rattle.pdh_row_text.specs.Form.{Form};
ghost use Rattle.pdh_clock.specs.Row.{ratio_of, row_of};
ghost use Rattle.pdh_clock.specs.Stored.{row_in};
ghost use Rattle.std.specs.Option.{option_copied, option_and_then};
ghost use Rattle.pdh_levels.specs.Levels.{IsLevel, level_at, level_stores, most_tributaries};
ghost use Rattle.pdh_line.specs.Paths.{steps_of};

use crate::fault::ScheduleFault;
use pdh_levels::store_count;
use pdh_row_text::{FoundRow, Version, read_row};
use pdh_rows::Says;
use pdh_shape::{Level, Path};

/// The first count that is above the bits of a frame.
fn count_over(counts: &[u32], most: u32) -> Option<u32>
    ensures { result ≡ find (nat_lt most) counts.now }
{
    counts.iter().copied().find(|count| most < *count)
}

/// The first count of a row that is above the bits of a frame. A row of rates has none.
fn row_over(row: &FoundRow, most: u32) -> Option<u32>
    requires { row.now.numbers.number ≤ most_tributaries }
    ensures { result ≡ first_over most row.now.says (numbers_found row.now.numbers) }
{
    match row.says {
        Says::Counts => count_over(row.numbers.as_slice(), most),
        Says::Rates { .. } => None,
    }
}

/// The levels below a tributary of the first of the levels, by its number from 1, where it has that one.
fn levels_below(levels: &[Level], number: u8) -> Option<&[Level]>
    ensures { (path : List ℕ)
        → level_at levels.now (number ∷ path) ≡ option_and_then (λ below. level_at below path) (option_copied result) }
{
    match levels {
        [level, below @ ..] if 1 <= number && number <= level.tribs => Some(below),
        _ => None,
    }
}

/// The level of a node, where the chain has it.
fn level_of(levels: &[Level], node: &Path) -> Option<Level>
    ensures { result ≡ level_at levels.now (steps_of node.now) }
{
    let at = match node.depth {
        0 => levels,
        1 => levels_below(levels, node.first)?,
        _ => levels_below(levels_below(levels, node.first)?, node.second)?,
    };
    at.first().copied()
}

/// Whether a row of a node of that level has one number for each store, and no count above the bits of a frame.
fn judge_numbers(level: &Level, number: u32, row: &FoundRow) -> Result<(), ScheduleFault>
    requires { IsLevel level.now }
    ensures judged { (said : Form) → IsForm row.now said
        → Gives (λ _. row_of (ratio_of level.now) (form_found row.now)) result (stores_judged number level.now said) }
    ensures stores { OnOk result (row.now.numbers.number ≡ level_stores level.now) }
{
    if row.numbers.number != store_count(level) {
        return Err(ScheduleFault::BadRow { line: number });
    }
    match row_over(row, level.len) {
        Some(count) => Err(ScheduleFault::CountOver {
            line: number,
            count: u64::from(count),
            most: level.len,
        }),
        None => Ok(()),
    }
}

/// The row of the line of that number, or the line's fault.
pub fn judge(
    levels: &[Level],
    version: Version,
    number: u32,
    line: &[u8],
) -> Result<FoundRow, ScheduleFault>
    requires { All IsLevel levels.now }
    ensures judged { Gives (λ found. row_in levels.now (form_found found)) result (row_judged levels.now version number line.now) }
    ensures few { IfOk result (λ row. row.numbers.number ≤ most_tributaries) }
    ensures repeat { IfOk result (λ row. row.repeat < 10 ^ 9) }
    ensures lens { IfOk result (λ row. 3 + 2 * length (numbers_found row.numbers) ≤ length line.now) }
{
    let Some(row) = read_row(version, line) else {
        return Err(ScheduleFault::BadRow { line: number });
    };
    let Some(level) = level_of(levels, &row.path) else {
        return Err(ScheduleFault::UnknownNode { line: number });
    };
    judge_numbers(&level, number, &row)?;
    Ok(row)
}
