//! The bytes that items make.

use crate::files::Files;
use crate::register::add_pattern;
use pdh_case_language::{Item, at_place};
use std::alloc::AllocError;

// Turns a bit, where there are so many.
fn flip(bytes: &mut [u8], bit: usize) {
    if let Some(byte) = bytes.get_mut(bit / 8) {
        *byte ^= 0x80 >> (bit % 8);
    }
}

// Adds bytes so many times.
fn add_times(into: &mut Vec<u8>, bytes: &[u8], times: usize) -> Result<(), AllocError> {
    for _ in 0..times {
        into.extend_from_slice(bytes)?;
    }
    Ok(())
}

// Adds the first bytes of a file, where it is held.
fn add_first(into: &mut Vec<u8>, file: Option<&[u8]>, count: usize) -> Result<(), AllocError> {
    let bytes = file.unwrap_or(&[]);
    into.extend_from_slice(&bytes[..count.min(bytes.len())])
}

// Has the bytes from `start` on stand there so many times.
fn repeat(
    files: &Files,
    bytes: &mut Vec<u8>,
    start: usize,
    times: usize,
) -> Result<(), AllocError> {
    let group = Vec::from_slice(files.alloc, bytes.get(start..).unwrap_or(&[]))?;
    bytes.truncate(start);
    add_times(bytes, group.as_slice(), times)
}

/// The bytes that items make for the file at a place among the names of its line.
pub fn content_of(files: &Files, items: &[Item], place: usize) -> Result<Vec<u8>, AllocError> {
    let mut bytes = Vec::new(files.alloc);
    let mut starts: Vec<usize> = Vec::new(files.alloc);
    for item in items {
        match item {
            Item::Bytes { bytes: part, times } => {
                add_times(&mut bytes, part.as_slice(), *times)?;
            }
            Item::Pattern {
                seed,
                leaf,
                bytes: count,
            } => {
                let leaf = leaf.unwrap_or((place % 100) as u32);
                add_pattern(&mut bytes, *seed, leaf, *count)?;
            }
            Item::First {
                bytes: count,
                names,
            } => {
                add_first(
                    &mut bytes,
                    files.get(at_place(names.as_slice(), place)),
                    *count,
                )?;
            }
            Item::Flip { bit } => flip(&mut bytes, *bit),
            Item::Open => starts.push(bytes.len())?,
            Item::Close { times } => {
                let start = starts.pop().unwrap_or(0);
                repeat(files, &mut bytes, start, *times)?;
            }
        }
    }
    Ok(bytes)
}
