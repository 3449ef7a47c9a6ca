//! The lines of a text, the words of a line, and the words that are numbers or paths.

ghost use Rattle.std.specs.Prelude.{◌==◌, drop, position, ◌≡◌, ◌≢◌, ◌+◌, ◌-◌, ◌*◌, ◌<◌, ◌≤◌, ◌^◌, [], ◌∷◌, length, IfSome, option_map};
ghost use Rattle.std.specs.Option.{option_copied};
ghost use Rattle.std.specs.List.{before_first};
ghost use Rattle.pdh_row_text.specs.Text.{is_passed_over as passed_over, lines_of, words_of, number_of, path_of};
ghost use Rattle.pdh_line.specs.Paths.{steps_of};
ghost use Rattle.pdh_row_text.specs.Parsed.{left_len, words_left};

use memchr::memchr;
use pdh_shape::{Path, TOP};

/// The place of the first byte that equals `mark`.
#[inline(always)]
fn position_of(bytes: &[u8], mark: u8) -> Option<usize>
    ensures { result ≡ position (λ byte. byte == mark) bytes.now }
{
    memchr(mark, bytes)
}

/// Splits bytes at the first one that equals `mark`, which stands in neither part.
#[inline(always)]
pub fn split_once(bytes: &[u8], mark: u8) -> (&[u8], Option<&[u8]>)
    ensures front { result.0.now ≡ before_first (λ byte. byte == mark) bytes.now }
    ensures rest { let end = position (λ byte. byte == mark) bytes.now in
        option_copied result.1 ≡ option_map (λ end. drop (end + 1) bytes.now) end }
{
    match position_of(bytes, mark) {
        Some(end) => (&bytes[..end], Some(&bytes[end + 1..])),
        None => (bytes, None),
    }
}

/// Splits a text that isn't empty into its first line and what follows the line feed.
pub fn first_line(text: &[u8]) -> (&[u8], &[u8])
    requires { text.now ≢ [] }
    ensures lines { lines_of text.now ≡ result.0.now ∷ lines_of result.1.now }
    ensures lens { length result.0.now + length result.1.now ≤ length text.now }
    ensures shorter { length result.1.now < length text.now }
{
    let (line, rest) = split_once(text, b'\n');
    (line, rest.unwrap_or(&[]))
}

/// Whether a line says nothing: an empty one, or one that begins with `#`.
pub fn is_passed_over(line: &[u8]) -> bool
    ensures { result ≡ passed_over line.now }
{
    matches!(line, [] | [b'#', ..])
}

/// Splits a line into its first word and what follows the space, where there is one.
pub fn first_word(line: &[u8]) -> (&[u8], Option<&[u8]>)
    ensures words { words_of line.now ≡ result.0.now ∷ words_left (option_copied result.1) }
    ensures lens { length line.now ≡ length result.0.now + left_len (option_copied result.1) }
{
    split_once(line, b' ')
}

/// The number that a word writes: `0`, or a digit 1 to 9 and at most eight digits.
pub fn number(word: &[u8]) -> Option<u32>
    ensures value { result ≡ number_of word.now }
    ensures small { IfSome result (λ value. value < 10 ^ 9) }
    ensures some { IfSome result (λ _. 0 < length word.now) }
{
    if word.is_empty() || word.len() > 9 || (word[0] == b'0' && word.len() > 1) {
        return None;
    }
    let mut value = 0;
    for digit in word {
        if !digit.is_ascii_digit() {
            return None;
        }
        value = 10 * value + u32::from(*digit - b'0');
    }
    Some(value)
}

// The number that three digits write, the first of which stands for hundreds.
#[inline(always)]
fn three_digits(first: u8, second: u8, third: u8) -> u32
    requires first { (48 ≤ first) × (first ≤ 57) }
    requires second { (48 ≤ second) × (second ≤ 57) }
    requires third { (48 ≤ third) × (third ≤ 57) }
    ensures { result ≡ 10 * (10 * (first - 48) + (second - 48)) + (third - 48) }
{
    100 * u32::from(first) + 10 * u32::from(second) + u32::from(third) - 111 * u32::from(b'0')
}

// The number that a line's first word writes, if it does, and what follows the space, where there is one.
#[inline(never)]
fn any_number(line: &[u8]) -> (Option<u32>, Option<&[u8]>)
    ensures words { words_of line.now ≡ before_first (λ byte. byte == 32) line.now ∷ words_left (option_copied result.1) }
    ensures value { result.0 ≡ number_of (before_first (λ byte. byte == 32) line.now) }
    ensures small { IfSome result.0 (λ value. value < 10 ^ 9) }
    ensures lens { IfSome result.0 (λ _. 1 + left_len (option_copied result.1) ≤ length line.now) }
{
    let (word, rest) = split_once(line, b' ');
    (number(word), rest)
}

/// The number that a line's first word writes, if it does, and what follows the space, where there is one.
/// Numbers of one digit and of three, as most repeats and counts are, are read at once.
#[inline(always)]
pub fn first_number(line: &[u8]) -> (Option<u32>, Option<&[u8]>)
    ensures words { words_of line.now ≡ before_first (λ byte. byte == 32) line.now ∷ words_left (option_copied result.1) }
    ensures value { result.0 ≡ number_of (before_first (λ byte. byte == 32) line.now) }
    ensures small { IfSome result.0 (λ value. value < 10 ^ 9) }
    ensures lens { IfSome result.0 (λ _. 1 + left_len (option_copied result.1) ≤ length line.now) }
{
    match line {
        [digit @ b'1'..=b'9', b' ', rest @ ..] => (Some(u32::from(*digit - b'0')), Some(rest)),
        [
            first @ b'1'..=b'9',
            second @ b'0'..=b'9',
            third @ b'0'..=b'9',
            b' ',
            rest @ ..,
        ] => { (Some(three_digits(*first, *second, *third)), Some(rest)) }
        [
            first @ b'1'..=b'9',
            second @ b'0'..=b'9',
            third @ b'0'..=b'9',
        ] => { (Some(three_digits(*first, *second, *third)), None) }
        _ => any_number(line),
    }
}

/// The path that a word writes: `/`, `/A` or `/A/B` with A and B from 1 to 9.
pub fn path(word: &[u8]) -> Option<Path>
    ensures steps { option_map steps_of result ≡ path_of word.now }
    ensures some { IfSome result (λ _. 0 < length word.now) }
{
    let (depth, first, second) = match word {
        [b'/'] => (0, b'0', b'0'),
        [b'/', first @ b'1'..=b'9'] => (1, *first, b'0'),
        [b'/', first @ b'1'..=b'9', b'/', second @ b'1'..=b'9'] => (2, *first, *second),
        _ => return None,
    };
    Some(Path {
        depth,
        first: first - b'0',
        second: second - b'0',
    })
}

// The path that a line's first word writes, if it does, and what follows the space, where there is one.
#[inline(never)]
fn any_path(line: &[u8]) -> (Option<Path>, Option<&[u8]>)
    ensures words { words_of line.now ≡ before_first (λ byte. byte == 32) line.now ∷ words_left (option_copied result.1) }
    ensures path { option_map steps_of result.0 ≡ path_of (before_first (λ byte. byte == 32) line.now) }
    ensures lens { IfSome result.0 (λ _. 1 + left_len (option_copied result.1) ≤ length line.now) }
{
    let (word, rest) = split_once(line, b' ');
    (path(word), rest)
}

/// The path that a line's first word writes, if it does, and what follows the space, where there is one.
/// A path with a space behind it is read at once.
#[inline(always)]
pub fn first_path(line: &[u8]) -> (Option<Path>, Option<&[u8]>)
    ensures words { words_of line.now ≡ before_first (λ byte. byte == 32) line.now ∷ words_left (option_copied result.1) }
    ensures path { option_map steps_of result.0 ≡ path_of (before_first (λ byte. byte == 32) line.now) }
    ensures lens { IfSome result.0 (λ _. 1 + left_len (option_copied result.1) ≤ length line.now) }
{
    match line {
        [
            b'/',
            first @ b'1'..=b'9',
            b'/',
            second @ b'1'..=b'9',
            b' ',
            rest @ ..,
        ] => {
            let path = Path {
                depth: 2,
                first: *first - b'0',
                second: *second - b'0',
            };
            (Some(path), Some(rest))
        }
        [b'/', first @ b'1'..=b'9', b' ', rest @ ..] => {
            let path = Path {
                depth: 1,
                first: *first - b'0',
                second: 0,
            };
            (Some(path), Some(rest))
        }
        [b'/', b' ', rest @ ..] => (Some(TOP), Some(rest)),
        _ => any_path(line),
    }
}
