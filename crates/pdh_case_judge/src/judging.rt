//! The comparison of what a run left with what is expected.

use crate::content::content_of;
use crate::files::Files;
use crate::findings::Findings;
use crate::outcome::Outcome;
use crate::saying::judge_text;
use pdh_case_language::{Run, Want, Wanted, at_place};
use sha2::{Digest, Sha256};
use std::alloc::AllocError;

/// How many first bytes are equal.
pub fn equal_front(one: &[u8], other: &[u8]) -> usize {
    one.iter()
        .zip(other)
        .position(|(byte, other)| byte != other)
        .unwrap_or(one.len().min(other.len()))
}

/// Notes that a file isn't held.
pub fn note_absent(line: usize, name: &str, findings: &mut Findings) -> Result<(), AllocError> {
    let difference = format!(in findings.alloc; "{name} isn't held")?;
    findings.note(line, difference.as_str())
}

fn judge_length(
    line: usize,
    name: &str,
    found: &[u8],
    wanted: &[u8],
    findings: &mut Findings,
) -> Result<(), AllocError> {
    let same = equal_front(found, wanted);
    let (found, wanted) = (found.len(), wanted.len());
    let difference = format!(in findings.alloc;
        "{name} has {found} bytes, not {wanted}; the first {same} are right"
    )?;
    findings.note(line, difference.as_str())
}

// Compares the bytes of a file, byte by byte where there are as many as expected.
fn judge_bytes(
    line: usize,
    name: &str,
    found: &[u8],
    wanted: &[u8],
    findings: &mut Findings,
) -> Result<(), AllocError> {
    if found.len() != wanted.len() {
        return judge_length(line, name, found, wanted, findings);
    }
    let place = equal_front(found, wanted);
    let (Some(found), Some(wanted)) = (found.get(place), wanted.get(place)) else {
        return Ok(());
    };
    let difference = format!(in findings.alloc;
        "{name} has {found:02X} at byte {place}, not {wanted:02X}"
    )?;
    findings.note(line, difference.as_str())
}

// Compares a file, which is held or not, with what is expected.
fn judge_file(
    line: usize,
    name: &str,
    found: Option<&[u8]>,
    wanted: Option<&[u8]>,
    findings: &mut Findings,
) -> Result<(), AllocError> {
    match (found, wanted) {
        (None, None) => Ok(()),
        (None, Some(_)) => note_absent(line, name, findings),
        (Some(found), None) => {
            let bytes = found.len();
            let difference = format!(in findings.alloc; "{name} is held, with {bytes} bytes")?;
            findings.note(line, difference.as_str())
        }
        (Some(found), Some(wanted)) => judge_bytes(line, name, found, wanted, findings),
    }
}

// Compares the number of bytes of a file.
fn judge_size(
    line: usize,
    name: &str,
    found: &[u8],
    wanted: usize,
    findings: &mut Findings,
) -> Result<(), AllocError> {
    let found = found.len();
    if found == wanted {
        return Ok(());
    }
    let difference = format!(in findings.alloc; "{name} has {found} bytes, not {wanted}")?;
    findings.note(line, difference.as_str())
}

// Compares the digest of a file.
fn judge_digest(
    line: usize,
    name: &str,
    found: &[u8],
    wanted: &str,
    findings: &mut Findings,
) -> Result<(), AllocError> {
    let found = hex::encode(findings.alloc, Sha256::digest(found))?;
    let found = found.as_str();
    if found == wanted {
        return Ok(());
    }
    let difference = format!(in findings.alloc; "{name} has the digest {found}, not {wanted}")?;
    findings.note(line, difference.as_str())
}

// Compares the number of a file's bits, of which `short` may be wanting.
fn judge_bits(
    line: usize,
    name: &str,
    found: &[u8],
    most: u64,
    short: u64,
    findings: &mut Findings,
) -> Result<(), AllocError> {
    let bits = (found.len() as u64).saturating_mul(8);
    let least = most.saturating_sub(short);
    if bits >= least && bits <= most {
        return Ok(());
    }
    let difference = format!(in findings.alloc; "{name} has {bits} bits, not {least} to {most}")?;
    findings.note(line, difference.as_str())
}

// Compares a file with the front of another.
fn judge_front(
    line: usize,
    name: &str,
    found: &[u8],
    other: &str,
    files: &Files,
    findings: &mut Findings,
) -> Result<(), AllocError> {
    let whole = files.get(other).unwrap_or(&[]);
    if whole.starts_with(found) {
        return Ok(());
    }
    let same = equal_front(found, whole);
    let difference = format!(in findings.alloc;
        "{name} isn't a front of {other}; the first {same} bytes are right"
    )?;
    findings.note(line, difference.as_str())
}

// Compares a file that is held with what is expected of one at a place among the names of its line.
fn judge_held(
    want: &Want,
    place: usize,
    name: &str,
    found: &[u8],
    outcome: &Outcome,
    findings: &mut Findings,
) -> Result<(), AllocError> {
    let line = want.line;
    match &want.wanted {
        Wanted::Holds { items } => {
            let wanted = content_of(&outcome.files, items.as_slice(), place)?;
            judge_bytes(line, name, found, wanted.as_slice(), findings)
        }
        Wanted::Has { bytes } => judge_size(line, name, found, *bytes, findings),
        Wanted::Digest { digest } => judge_digest(line, name, found, digest.as_str(), findings),
        Wanted::Begins {
            others,
            most,
            short,
        } => {
            let other = at_place(others.as_slice(), place);
            judge_front(line, name, found, other, &outcome.files, findings)?;
            judge_bits(line, name, found, *most, *short, findings)
        }
        Wanted::Same | Wanted::Absent => Ok(()),
    }
}

// Compares a file with what is expected of it.
fn judge_named(
    want: &Want,
    place: usize,
    name: &str,
    before: &Files,
    outcome: &Outcome,
    findings: &mut Findings,
) -> Result<(), AllocError> {
    let found = outcome.files.get(name);
    match (&want.wanted, found) {
        (Wanted::Same, _) => judge_file(want.line, name, found, before.get(name), findings),
        (Wanted::Absent, _) => judge_file(want.line, name, found, None, findings),
        (_, None) => note_absent(want.line, name, findings),
        (_, Some(found)) => judge_held(want, place, name, found, outcome, findings),
    }
}

fn judge_want(
    want: &Want,
    before: &Files,
    outcome: &Outcome,
    findings: &mut Findings,
) -> Result<(), AllocError> {
    for (place, name) in want.names.iter().enumerate() {
        judge_named(want, place, name.as_str(), before, outcome, findings)?;
    }
    Ok(())
}

// Whether something is said of a file.
fn is_named(run: &Run, name: &str) -> bool {
    run.wants.iter().any(|want| want.names.iter().any(|known| known.as_str() == name))
}

// The files of which nothing is said are held where they were before.
fn judge_lost(
    run: &Run,
    before: &Files,
    outcome: &Outcome,
    findings: &mut Findings,
) -> Result<(), AllocError> {
    for name in before.held.keys() {
        let name = name.as_str();
        if !is_named(run, name) && outcome.files.get(name).is_none() {
            note_absent(run.line, name, findings)?;
        }
    }
    Ok(())
}

// The files of which nothing is said, and that are held, are as before.
fn judge_left(
    run: &Run,
    before: &Files,
    outcome: &Outcome,
    findings: &mut Findings,
) -> Result<(), AllocError> {
    for (name, found) in outcome.files.held.iter() {
        let name = name.as_str();
        if !is_named(run, name) {
            judge_file(
                run.line,
                name,
                Some(found.as_slice()),
                before.get(name),
                findings,
            )?;
        }
    }
    Ok(())
}

/// Notes a status that is another.
pub fn note_status(
    line: usize,
    found: u8,
    wanted: u8,
    findings: &mut Findings,
) -> Result<(), AllocError> {
    let difference = format!(in findings.alloc; "status {found}, not {wanted}")?;
    findings.note(line, difference.as_str())
}

fn judge_status(run: &Run, found: u8, findings: &mut Findings) -> Result<(), AllocError> {
    match run.status {
        Some((line, wanted)) if found != wanted => note_status(line, found, wanted, findings),
        _ => Ok(()),
    }
}

/// Compares the outcome of a run of this row of words, over the files that were there before, with all that is expected of it.
pub fn judge(
    run: &Run,
    row: &[String],
    before: &Files,
    outcome: &Outcome,
    findings: &mut Findings,
) -> Result<(), AllocError> {
    judge_status(run, outcome.status, findings)?;
    judge_text(run, row, before, outcome, findings)?;
    for want in run.wants.iter() {
        judge_want(want, before, outcome, findings)?;
    }
    judge_lost(run, before, outcome, findings)?;
    judge_left(run, before, outcome, findings)
}
