//! The comparison of a run's text.

use crate::files::Files;
use crate::findings::Findings;
use crate::outcome::Outcome;
use pdh_case_language::{Run, Said};
use std::alloc::{AllocError, Global};

/// The words of a row, parted by spaces.
pub fn joined(alloc: Global, row: &[String]) -> Result<String, AllocError> {
    let mut words = String::new(alloc);
    for word in row {
        if !words.is_empty() {
            words.push(' ')?;
        }
        words.push_str(word.as_str())?;
    }
    Ok(words)
}

// The line with the number of a file's bits in place of its name in braces, or the words of the row in place of `{words}`.
fn filled(alloc: Global, line: &str, row: &[String], before: &Files) -> Result<String, AllocError> {
    let Some((front, rest)) = line.split_once('{') else {
        return String::from_str(alloc, line);
    };
    let Some((name, back)) = rest.split_once('}') else {
        return String::from_str(alloc, line);
    };
    if name == "words" {
        let words = joined(alloc, row)?;
        return format!(in alloc; "{front}{words}{back}");
    }
    let bytes = before.get(name).map_or(0, |bytes| bytes.len());
    let bits = bytes.saturating_mul(8);
    format!(in alloc; "{front}{bits}{back}")
}

fn judge_line(
    said: &Said,
    found: Option<&str>,
    row: &[String],
    before: &Files,
    findings: &mut Findings,
) -> Result<(), AllocError> {
    let alloc = findings.alloc;
    let wanted = filled(alloc, said.text.as_str(), row, before)?;
    let wanted = wanted.as_str();
    let Some(found) = found else {
        let difference = format!(in alloc; "doesn't say '{wanted}'")?;
        return findings.note(said.line, difference.as_str());
    };
    if found == wanted {
        return Ok(());
    }
    let difference = format!(in alloc; "says '{found}', not '{wanted}'")?;
    findings.note(said.line, difference.as_str())
}

// A line that is too much.
fn judge_more(line: usize, found: &str, findings: &mut Findings) -> Result<(), AllocError> {
    let difference = format!(in findings.alloc; "says '{found}' as well")?;
    findings.note(line, difference.as_str())
}

// Compares the lines of a text with those that are expected, which are all of it.
fn judge_lines(
    run: &Run,
    row: &[String],
    before: &Files,
    text: &str,
    findings: &mut Findings,
) -> Result<(), AllocError> {
    let mut lines = text.lines();
    for said in run.says.iter() {
        judge_line(said, lines.next(), row, before, findings)?;
    }
    match lines.next() {
        Some(more) => judge_more(run.line, more, findings),
        None => Ok(()),
    }
}

/// Compares the text of a run of this row of words with the lines that are expected, each of which has its end.
pub fn judge_text(
    run: &Run,
    row: &[String],
    before: &Files,
    outcome: &Outcome,
    findings: &mut Findings,
) -> Result<(), AllocError> {
    let text = String::from_utf8_lossy(findings.alloc, outcome.text.as_slice())?;
    let text = text.as_str();
    judge_lines(run, row, before, text, findings)?;
    if !text.is_empty() && !text.ends_with('\n') {
        findings.note(run.line, "the text doesn't end with its line")?;
    }
    Ok(())
}
