//! The reading of a schedule's rows.

ghost use Rattle.std.specs.Prelude.{◌≡◌, ◌≤◌, ◌+◌, suc, List, All, length, IfOk};
ghost use Rattle.pdh_shape.specs.OwnNumbers.{most_bytes};
ghost use Rattle.pdh_shape.specs.declared.place.Level.{Level};
ghost use Rattle.pdh_levels.specs.Levels.{AreLevels};
ghost use Rattle.pdh_row_text.specs.Text.{lines_of};
ghost use Rattle.pdh_clock.specs.Judged.{Gives, lines_judged, rows_judged, versions_judged};
ghost use Rattle.pdh_clock.specs.Made.{IsRated};
ghost use Rattle.pdh_row_text.specs.Parsed.{lines_before};
ghost use Rattle.pdh_clock.specs.Stored.{IsTree, rows_in};

use crate::fault::ScheduleFault;
use crate::judge::judge;
use crate::tree::Tree;
use pdh_row_text::{Version, first_line, is_passed_over};
use pdh_shape::Level;
use std::alloc::Global;

/// The version of a text, and the lines that may be rows.
fn version_of(text: &[u8]) -> (Version, &[u8])
    ensures judged { (levels : List Level) → versions_judged levels (lines_of text.now)
        ≡ rows_judged levels result.0 (suc (lines_before result.0)) (lines_of result.1.now) }
    ensures lens { lines_before result.0 + length result.1.now ≤ length text.now }
{
    if text.is_empty() {
        return (Version::First, text);
    }
    let (line, rest) = first_line(text);
    if line == b"version 2".as_slice() {
        return (Version::Second, rest);
    }
    (Version::First, text)
}

/// The rows of a text that isn't too long, each at its node.
pub fn read_rows(alloc: Global, levels: &[Level], text: &[u8]) -> Result<Tree, ScheduleFault>
    requires levels { AreLevels levels.now }
    requires rated { All IsRated levels.now }
    requires short { length text.now ≤ most_bytes }
    ensures rows { Gives rows_in result (lines_judged levels.now (lines_of text.now)) }
    ensures tree { IfOk result (λ tree. IsTree tree) }
    ensures levels { IfOk result (λ tree. tree.levels.items ≡ levels.now) }
{
    let mut tree = Tree::new(alloc, levels)?;
    let (version, rows) = version_of(text);
    let mut rest = rows;
    let mut number = version.lines();
    while !rest.is_empty() {
        let (line, after) = first_line(rest);
        number += 1;
        if !is_passed_over(line) {
            let row = judge(levels, version, number, line)?;
            tree.add(&row.path, row.repeat, row.says, row.numbers.as_slice())?;
        }
        rest = after;
    }
    Ok(tree)
}
