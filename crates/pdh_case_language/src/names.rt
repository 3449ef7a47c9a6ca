//! Names of files, one or a range of them.

use crate::fault::Fault;
use std::alloc::{AllocError, Global};

// A name with a number of two digits.
fn numbered(alloc: Global, before: &str, number: u32, after: &str) -> Result<String, AllocError> {
    format!(in alloc; "{before}{number:02}{after}")
}

// A text whose first part has so many bytes, as two.
fn parted(text: &str, bytes: usize) -> Result<(&str, &str), Fault> {
    text.split_at_checked(bytes).ok_or(Fault::BadNames)
}

fn number(digits: &str) -> Result<u32, Fault> {
    digits.parse::<u32>().map_err(|_| Fault::BadNames)
}

// The names from `first`, which ends in its number, to `last`, which begins with its number.
fn range(alloc: Global, first: &str, last: &str) -> Result<Vec<String>, Fault> {
    let (before, from) = parted(first, first.len().saturating_sub(2))?;
    let before_last = last.strip_prefix(before).ok_or(Fault::BadNames)?;
    let (to, after) = parted(before_last, 2)?;
    let from = number(from)?;
    let to = number(to)?;
    if to < from || to > 99 {
        return Err(Fault::BadNames);
    }
    let mut names = Vec::new(alloc);
    for at in from..=to {
        names.push(numbered(alloc, before, at, after)?)?;
    }
    Ok(names)
}

/// The names that a word stands for: itself, or as `t01..t04.bits` those of a range.
pub fn names_of(alloc: Global, word: &str) -> Result<Vec<String>, Fault> {
    if let Some((first, last)) = word.split_once("..") {
        return range(alloc, first, last);
    }
    let mut names = Vec::new(alloc);
    names.push(String::from_str(alloc, word)?)?;
    Ok(names)
}

/// The name at a place, or the only one.
pub fn at_place(names: &[String], place: usize) -> &str {
    match names {
        [only] => only.as_str(),
        _ => names.get(place).map_or("", |name| name.as_str()),
    }
}
