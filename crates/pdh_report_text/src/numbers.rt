//! Numbers and times as people read them.

ghost use Rattle.std.specs.Prelude.{◌≡◌, ◌<◌, ◌++◌, IfOk, OnOk, [], ◌∷◌, string_bytes};
ghost use Rattle.pdh_report_text.specs.Numbers.{comma_before, grouped_text, count_text, duration_text, clock_text};

use itoa::Buffer;
use std::alloc::{AllocError, Global};

// Appends a digit.
fn push_digit(text: &mut String, digit: u8) -> Result<(), AllocError>
    requires { digit < 128 }
    ensures { OnOk result (string_bytes text.new ≡ string_bytes text.old ++ digit ∷ []) }
{
    text.push(char::from(digit))
}

// Appends what stands before so many digits, behind another one.
fn push_comma(text: &mut String, digits: usize) -> Result<(), AllocError>
    ensures { OnOk result (string_bytes text.new ≡ string_bytes text.old ++ comma_before digits) }
{
    if digits > 0 && digits % 3 == 0 {
        return text.push_str(",");
    }
    Ok(())
}

/// A number with a comma before each three digits, counted from its end; or the refusal of memory.
pub fn grouped(alloc: Global, number: u64) -> Result<String, AllocError>
    ensures { IfOk result (λ text. string_bytes text ≡ grouped_text number) }
{
    let mut buffer = Buffer::new();
    let digits = buffer.format(number).as_bytes();
    let mut text = String::new(alloc);
    for (index, digit) in digits.iter().enumerate() {
        push_digit(&mut text, *digit)?;
        push_comma(&mut text, digits.len() - index - 1)?;
    }
    Ok(text)
}

/// The same, and `-` for 0.
pub fn count(alloc: Global, number: u64) -> Result<String, AllocError>
    ensures { IfOk result (λ text. string_bytes text ≡ count_text number) }
{
    if number == 0 {
        return format!(in alloc; "-");
    }
    grouped(alloc, number)
}

/// How long so many bits take at a rate in bits a second, cut off: `-` for none, whole microseconds below a millisecond,
/// milliseconds with one digit below a second, else seconds with one digit; or the refusal of memory.
pub fn duration(alloc: Global, bits: u64, rate: u64) -> Result<String, AllocError>
    requires { 0 < rate }
    ensures { IfOk result (λ text. string_bytes text ≡ duration_text rate bits) }
{
    if bits == 0 {
        return format!(in alloc; "-");
    }
    let us = u128::from(bits) * 1_000_000 / u128::from(rate);
    if us == 0 {
        return format!(in alloc; "<1 us");
    }
    if us < 1000 {
        return format!(in alloc; "{us} us");
    }
    if us < 1_000_000 {
        let ms = us / 1000;
        let tenth = us / 100 % 10;
        return format!(in alloc; "{ms}.{tenth} ms");
    }
    let seconds = us / 1_000_000;
    let tenth = us / 100_000 % 10;
    format!(in alloc; "{seconds}.{tenth} s")
}

/// The time of a bit at a rate in bits a second, in seconds with six digits, cut off; or the refusal of memory.
pub fn clock_time(alloc: Global, bit: u64, rate: u64) -> Result<String, AllocError>
    requires { 0 < rate }
    ensures { IfOk result (λ text. string_bytes text ≡ clock_text rate bit) }
{
    let seconds = bit / rate;
    let us = u128::from(bit % rate) * 1_000_000 / u128::from(rate);
    format!(in alloc; "{seconds}.{us:06}")
}
