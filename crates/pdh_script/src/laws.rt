//! Laws of scripts. Each function does nothing: what it ensures is the law.
ghost use Rattle.std.specs.Prelude.{◌≡◌, ◌≤◌, ◌+◌, ◌*◌, ℕ, Bool, List, ◌++◌, length};
ghost use Rattle.pdh_script.specs.Scripts.{FitIn, Row, bytes_added, disturbed};
ghost use Rattle.pdh_script.specs.Bending.{added_at, all_brought};

/// The bits of a line bring the disturbed line, one after another, with what is added behind the last of them.
pub fn bends_as_applied()
    ensures { (rows : List Row) (line : List Bool) → FitIn (length line) rows
        → disturbed line rows ≡ all_brought 0 rows line ++ added_at (length line) rows }
{}

/// Bits bring no more bits than they are and the rows add, with what is added behind the last of them.
pub fn bits_bring_no_more_than_rows_add()
    ensures { (rows : List Row) (place : ℕ) (bits : List Bool)
        → length (all_brought place rows bits ++ added_at (place + length bits) rows) ≤ length bits + 8 * bytes_added rows }
{}
