//! Clock offsets, and the words that write them.

ghost use Rattle.std.specs.Prelude.{◌==◌, ◌≡◌, ◌+◌, ◌<◌, ◌≤◌, ◌∷◌, length, IfSome};
ghost use Rattle.std.specs.Option.{option_copied};
ghost use Rattle.std.specs.List.{before_first};
ghost use Rattle.pdh_row_text.specs.Text.{words_of};
ghost use Rattle.pdh_row_text.specs.RateWords.{ahead_of, behind_of, rate_of};
ghost use Rattle.pdh_row_text.specs.Parsed.{left_len, words_left};

use crate::words::{number, split_once};

// The rate of a stream that is so many parts per million fast, in millionths of the nominal one.
fn ahead(ppm: u32) -> Option<u32>
    ensures { result ≡ ahead_of ppm }
{
    if ppm <= 1000 {
        Some(1_000_000 + ppm)
    } else {
        None
    }
}

// Or slow, which isn't 0.
fn behind(ppm: u32) -> Option<u32>
    ensures { result ≡ behind_of ppm }
{
    if 1 <= ppm && ppm <= 1000 {
        Some(1_000_000 - ppm)
    } else {
        None
    }
}

/// The rate that a word writes, in millionths of the nominal one: its offset in parts per million, a number of at most 1000,
/// with a minus sign before it where it is negative.
pub fn rate(word: &[u8]) -> Option<u32>
    ensures value { result ≡ rate_of word.now }
    ensures least { IfSome result (λ rate. 999000 ≤ rate) }
    ensures most { IfSome result (λ rate. rate ≤ 1001000) }
    ensures some { IfSome result (λ _. 0 < length word.now) }
{
    match word {
        [] => None,
        [b'-', digits @ ..] => behind(number(digits)?),
        _ => ahead(number(word)?),
    }
}

/// The rate that a line's first word writes, if it does, and what follows the space, where there is one.
pub fn first_rate(line: &[u8]) -> (Option<u32>, Option<&[u8]>)
    ensures words { words_of line.now ≡ before_first (λ byte. byte == 32) line.now ∷ words_left (option_copied result.1) }
    ensures value { result.0 ≡ rate_of (before_first (λ byte. byte == 32) line.now) }
    ensures least { IfSome result.0 (λ rate. 999000 ≤ rate) }
    ensures most { IfSome result.0 (λ rate. rate ≤ 1001000) }
    ensures lens { IfSome result.0 (λ _. 1 + left_len (option_copied result.1) ≤ length line.now) }
{
    let (word, rest) = split_once(line, b' ');
    (rate(word), rest)
}
