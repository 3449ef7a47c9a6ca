//! What callers may rely on of the numbers and rows of a schedule's text.

ghost use Rattle.std.specs.Prelude.{◌≡◌, None};

use pdh_row_text::{FoundRow, Version, number, read_row};

/// `07` is no number.
pub fn leading_zero_accepted() -> Option<u32>
    ensures { result ≡ None }
{
    number(b"07")
}

/// `-0` is no clock offset.
pub fn negative_zero_is_taken() -> Option<FoundRow>
    ensures { result ≡ None }
{
    read_row(Version::Second, b"rate / 1 -0")
}
