//! A row of a schedule, as its line says it.

ghost use Rattle.std.specs.Prelude.{ℕ, ◌+◌, ◌*◌, ◌^◌, IfSome, List, [], ◌∷◌, ◌++◌, ◌≡◌, ◌≤◌, ◌<◌, length};
ghost use Rattle.std.specs.Option.{option_copied};
ghost use Rattle.pdh_levels.specs.Levels.{most_tributaries};
ghost use Rattle.pdh_row_text.specs.Text.{words_of, number_of, each_of};
ghost use Rattle.pdh_row_text.specs.RateWords.{rate_of};
ghost use Rattle.pdh_row_text.specs.Form.{counts_row as row_of_counts, rates_row as row_of_rates, form_of};
ghost use Rattle.pdh_row_text.specs.declared.row.Version.TheVariants.{Second};
ghost use Rattle.pdh_row_text.specs.Parsed.{Finds, AreNumbers, IsForm, numbers_found, left_len, lines_before, words_left};

use crate::rates::first_rate;
use crate::words::{first_number, first_path, first_word};
use pdh_levels::MOST_TRIBUTARIES;
use pdh_rows::Says;
use pdh_shape::{MOST_FRAMES, Path};

/// The version of a text.
#[derive(Clone, Copy)]
pub enum Version {
    /// Its rows are rows of counts.
    First,
    /// Its rows are rows of counts and rows of rates.
    Second,
}

impl Version {
    /// How many lines of a text say its version.
    pub fn lines(self) -> u32
        ensures { result ≡ lines_before self }
    {
        match self {
            Version::First => 0,
            Version::Second => 1,
        }
    }
}

/// The numbers of a row: how many there are, and the first ones, as many as a node has tributaries at most.
#[derive(Clone, Copy)]
pub struct Numbers {
    /// How many there are.
    pub number: usize,
    /// The first ones.
    pub first: [u32; MOST_TRIBUTARIES],
}

/// A row in its form, of whatever node.
#[derive(Clone, Copy)]
pub struct FoundRow {
    /// The node's path.
    pub path: Path,
    /// How many frames the row is of, which isn't 0.
    pub repeat: u32,
    /// What its numbers say.
    pub says: Says,
    /// Its numbers.
    pub numbers: Numbers,
}

impl Numbers {
    /// Takes one more number.
    fn push(&mut self, number: u32)
        requires { self.old.number < usize.MAX }
        ensures number { self.new.number ≡ self.old.number + 1 }
        ensures numbers { (numbers : List ℕ)
            → AreNumbers self.old numbers → AreNumbers self.new (numbers ++ number ∷ []) }
    {
        if self.number < MOST_TRIBUTARIES {
            self.first[self.number] = number;
        }
        self.number += 1;
    }

    /// The numbers, where they are no more than a node has tributaries at most.
    pub fn as_slice(&self) -> &[u32]
        requires { self.now.number ≤ most_tributaries }
        ensures { result.now ≡ numbers_found self.now }
    {
        &self.first[..self.number]
    }
}

/// The counts that the words are, where each is a number.
fn counts_in(words: Option<&[u8]>) -> Option<Numbers>
    ensures counts { Finds AreNumbers result (each_of number_of (words_left (option_copied words.entry))) }
    ensures lens { IfSome result
        (λ found. 2 * found.number ≤ left_len (option_copied words.entry)) }
{
    let mut found = Numbers {
        number: 0,
        first: [0; MOST_TRIBUTARIES],
    };
    let mut rest = words;
    while let Some(line) = rest {
        let (count, after) = first_number(line);
        found.push(count?);
        rest = after;
    }
    Some(found)
}

/// The rates that the words are, where each is the offset of a clock.
fn rates_in(words: Option<&[u8]>) -> Option<Numbers>
    ensures rates { Finds AreNumbers result (each_of rate_of (words_left (option_copied words.entry))) }
    ensures lens { IfSome result
        (λ found. 2 * found.number ≤ left_len (option_copied words.entry)) }
{
    let mut found = Numbers {
        number: 0,
        first: [0; MOST_TRIBUTARIES],
    };
    let mut rest = words;
    while let Some(line) = rest {
        let (rate, after) = first_rate(line);
        found.push(rate?);
        rest = after;
    }
    Some(found)
}

/// The row of counts that a line is, where it has the form of one.
fn counts_row(line: &[u8]) -> Option<FoundRow>
    ensures row { Finds IsForm result (row_of_counts (words_of line.now)) }
    ensures small { IfSome result (λ row. row.repeat < 10 ^ 9) }
    ensures lens { IfSome result (λ row. 3 + 2 * row.numbers.number ≤ length line.now) }
{
    let (path, rest) = first_path(line);
    let path = path?;
    let (repeat, rest) = first_number(rest?);
    let repeat = repeat?;
    let numbers = counts_in(rest)?;
    (repeat > 0).then_some(FoundRow {
        path,
        repeat,
        says: Says::Counts,
        numbers,
    })
}

/// The row of rates that stands behind the word `rate`, where it has the form of one.
fn rates_row(line: &[u8]) -> Option<FoundRow>
    ensures row { Finds IsForm result (row_of_rates (words_of line.now)) }
    ensures small { IfSome result (λ row. row.repeat < 10 ^ 9) }
    ensures lens { IfSome result (λ row. 3 + 2 * row.numbers.number ≤ length line.now) }
{
    let (path, rest) = first_path(line);
    let path = path?;
    let (repeat, rest) = first_number(rest?);
    let repeat = repeat?;
    let (line, rest) = first_rate(rest?);
    let line = line?;
    let numbers = rates_in(rest)?;
    (1 <= repeat && u64::from(repeat) <= MOST_FRAMES).then_some(FoundRow {
        path,
        repeat,
        says: Says::Rates { line },
        numbers,
    })
}

/// The row that a line of a text of version 2 is, where it has the form of one.
fn second_row(line: &[u8]) -> Option<FoundRow>
    ensures row { Finds IsForm result (form_of Second line.now) }
    ensures small { IfSome result (λ row. row.repeat < 10 ^ 9) }
    ensures lens { IfSome result (λ row. 3 + 2 * row.numbers.number ≤ length line.now) }
{
    let (word, rest) = first_word(line);
    if word == b"rate".as_slice() {
        return rates_row(rest?);
    }
    counts_row(line)
}

/// The row that a line is, where it has the form of one.
pub fn read_row(version: Version, line: &[u8]) -> Option<FoundRow>
    ensures row { Finds IsForm result (form_of version line.now) }
    ensures small { IfSome result (λ row. row.repeat < 10 ^ 9) }
    ensures lens { IfSome result (λ row. 3 + 2 * row.numbers.number ≤ length line.now) }
{
    match version {
        Version::First => counts_row(line),
        Version::Second => second_row(line),
    }
}
