//! The reading of items of bytes.

use crate::case::Item;
use crate::fault::Fault;
use crate::names::names_of;
use std::alloc::Global;

/// The number that a word writes.
pub fn number(word: &str) -> Result<u64, Fault> {
    word.parse::<u64>().map_err(|_| Fault::BadNumber)
}

/// The number that a word writes, as a count of things in memory.
pub fn count(word: &str) -> Result<usize, Fault> {
    word.parse::<u32>()
        .map(|count| count as usize)
        .map_err(|_| Fault::BadNumber)
}

fn pattern(seed: &str, leaf: &str, bytes: &str) -> Result<Item, Fault> {
    let seed = seed.parse::<u32>().map_err(|_| Fault::BadNumber)?;
    let leaf = match leaf {
        "leaf" => None,
        _ => Some(leaf.parse::<u32>().map_err(|_| Fault::BadNumber)?),
    };
    Ok(Item::Pattern {
        seed,
        leaf,
        bytes: count(bytes)?,
    })
}

// The item with a name and parts behind it.
fn named_item(alloc: Global, name: &str, parts: &str) -> Result<Item, Fault> {
    match name {
        "flip" => Ok(Item::Flip { bit: count(parts)? }),
        "first" => {
            let (bytes, name) = parts.split_once(':').ok_or(Fault::BadBytes)?;
            Ok(Item::First {
                bytes: count(bytes)?,
                names: names_of(alloc, name)?,
            })
        }
        "pattern" => {
            let (seed, parts) = parts.split_once(':').ok_or(Fault::BadBytes)?;
            let (leaf, bytes) = parts.split_once(':').ok_or(Fault::BadBytes)?;
            pattern(seed, leaf, bytes)
        }
        _ => Err(Fault::BadBytes),
    }
}

// Bytes, so many times.
fn digits(alloc: Global, digits: &str, times: usize) -> Result<Item, Fault> {
    let Ok(bytes) = hex::decode(alloc, digits) else {
        return Err(Fault::BadBytes);
    };
    Ok(Item::Bytes { bytes, times })
}

fn item(alloc: Global, word: &str) -> Result<Item, Fault> {
    if let Some((name, parts)) = word.split_once(':') {
        return named_item(alloc, name, parts);
    }
    match word.split_once('*') {
        Some((bytes, times)) => digits(alloc, bytes, count(times)?),
        None => digits(alloc, word, 1),
    }
}

// How often a group stands there, by what follows it.
fn times_of(word: &str) -> Result<usize, Fault> {
    match word.strip_prefix('*') {
        Some(times) => count(times),
        None if word.is_empty() => Ok(1),
        None => Err(Fault::BadBytes),
    }
}

// Adds the item of a word with its brackets, and answers how many groups are open behind it.
fn add(alloc: Global, word: &str, open: usize, items: &mut Vec<Item>) -> Result<usize, Fault> {
    let mut open = open;
    let mut word = word;
    if let Some(rest) = word.strip_prefix('(') {
        items.push(Item::Open)?;
        open = open.saturating_add(1);
        word = rest;
    }
    let Some((inner, after)) = word.split_once(')') else {
        if !word.is_empty() {
            items.push(item(alloc, word)?)?;
        }
        return Ok(open);
    };
    if !inner.is_empty() {
        items.push(item(alloc, inner)?)?;
    }
    let times = times_of(after)?;
    items.push(Item::Close { times })?;
    open.checked_sub(1).ok_or(Fault::BadGroup)
}

/// The items that words write: hexadecimal digits, also `HEX*N`, `pattern:SEED:LEAF:BYTES` with `leaf` or a number for LEAF,
/// `first:BYTES:NAME` and `flip:BIT`, and groups of them, as `(F410 00*104)*3`.
pub fn items(alloc: Global, words: &[String]) -> Result<Vec<Item>, Fault> {
    let mut items = Vec::new(alloc);
    let mut open = 0;
    for word in words {
        open = add(alloc, word.as_str(), open, &mut items)?;
    }
    if open > 0 {
        return Err(Fault::BadGroup);
    }
    Ok(items)
}
