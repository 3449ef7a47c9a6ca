//! The reading of a script's rows.

ghost use Rattle.std.specs.Prelude.{◌≡◌, ◌≤◌, ◌+◌, ◌*◌, [], ◌∷◌, ◌++◌, length, take, IfOk, OnOk};
ghost use Rattle.pdh_row_text.specs.Text.{lines_of};
ghost use Rattle.pdh_script.specs.ScriptText.{Gives, row_judged, rows_judged, most_script_bytes};
ghost use Rattle.pdh_script.specs.Stored.{AreSteps, count_added, most_row_bytes, row_found, rows_in};

use crate::fault::ScriptFault;
use crate::row::{FoundRow, row};
use crate::step::Step;
use pdh_row_text::{first_line, is_passed_over};
use std::alloc::{AllocError, Global};

/// The rows of a script, and the bytes that they add.
#[derive(Drop)]
pub struct StoredRows {
    pub steps: Vec<Step>,
    pub added: Vec<u8>,
}

impl StoredRows {
    /// Takes one more row. After an error only some of it may have been taken.
    fn push(&mut self, found: &FoundRow) -> Result<(), AllocError>
        requires { count_added found.now.step.edit ≤ most_row_bytes }
        ensures steps { OnOk result (self.new.steps.items ≡ self.old.steps.items ++ found.now.step ∷ []) }
        ensures added { OnOk result (self.new.added.items
            ≡ self.old.added.items ++ take (count_added found.now.step.edit) found.now.bytes) }
        ensures lens { OnOk result (length self.new.added.items
            ≡ length self.old.added.items + count_added found.now.step.edit) }
    {
        self.added.extend_from_slice(found.added())?;
        self.steps.push(found.step)?;
        Ok(())
    }
}

/// The row of the line of that number, or the line's fault. The row before it ends at that place, and the line that is to be
/// disturbed has so many bits.
fn judge(bits: u64, number: u32, place: u64, line: &[u8]) -> Result<FoundRow, ScriptFault>
    ensures judged { Gives row_found result (row_judged bits number place line.now) }
    ensures few { IfOk result (λ found. count_added found.step.edit ≤ most_row_bytes) }
    ensures lens { IfOk result (λ found. 2 * count_added found.step.edit ≤ length line.now) }
{
    let Some(found) = row(line) else {
        return Err(ScriptFault::BadRow { line: number });
    };
    if u64::from(found.step.at) < place {
        return Err(ScriptFault::BadRow { line: number });
    }
    if found.step.end() > bits {
        return Err(ScriptFault::PastEnd { line: number });
    }
    Ok(found)
}

/// The rows of a text that isn't too long.
pub fn read_rows(alloc: Global, text: &[u8], bits: u64) -> Result<StoredRows, ScriptFault>
    requires { length text.now ≤ most_script_bytes }
    ensures rows { Gives (λ read. rows_in read.steps.items read.added.items) result (rows_judged bits 1 0 (lines_of text.now)) }
    ensures steps { IfOk result (λ read. AreSteps read.steps.items read.added.items) }
{
    let mut rows = StoredRows {
        steps: Vec::new(alloc),
        added: Vec::new(alloc),
    };
    let mut rest = text;
    let mut number = 0;
    let mut place = 0;
    while !rest.is_empty() {
        let (line, after) = first_line(rest);
        number += 1;
        if !is_passed_over(line) {
            let found = judge(bits, number, place, line)?;
            place = found.step.end();
            rows.push(&found)?;
        }
        rest = after;
    }
    Ok(rows)
}
