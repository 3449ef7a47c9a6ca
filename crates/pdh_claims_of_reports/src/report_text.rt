//! Numbers and times as people read them.

ghost use Rattle.std.specs.Prelude.{◌≡◌, IfOk, codes, string_bytes};

use pdh_report_text::{clock_time, count, duration, grouped};
use std::alloc::{AllocError, Global};

/// A thousand has its comma behind the first digit.
pub fn comma_before_four_digits(alloc: Global) -> Result<String, AllocError>
    ensures { IfOk result (λ text. string_bytes text ≡ codes "1,000") }
{
    grouped(alloc, 1000)
}

/// A number of one digit has no comma.
pub fn comma_behind_the_last_digit(alloc: Global) -> Result<String, AllocError>
    ensures { IfOk result (λ text. string_bytes text ≡ codes "7") }
{
    grouped(alloc, 7)
}

/// A count of one is told as a number.
pub fn hyphen_for_one(alloc: Global) -> Result<String, AllocError>
    ensures { IfOk result (λ text. string_bytes text ≡ codes "1") }
{
    count(alloc, 1)
}

/// A time of 1234 microseconds is told in milliseconds and tenths of them.
pub fn hundredths_for_tenths(alloc: Global) -> Result<String, AllocError>
    ensures { IfOk result (λ text. string_bytes text ≡ codes "1.2 ms") }
{
    duration(alloc, 1234, 1_000_000)
}

/// A time of a millisecond is told in milliseconds.
pub fn microseconds_above_a_millisecond(alloc: Global) -> Result<String, AllocError>
    ensures { IfOk result (λ text. string_bytes text ≡ codes "1.0 ms") }
{
    duration(alloc, 1000, 1_000_000)
}

/// A time has six digits behind its point, also where they begin with zeros.
pub fn time_without_its_zeros(alloc: Global) -> Result<String, AllocError>
    ensures { IfOk result (λ text. string_bytes text ≡ codes "0.000001") }
{
    clock_time(alloc, 1, 1_000_000)
}
