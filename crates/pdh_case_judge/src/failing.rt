//! The comparison of what a run left in which a call failed with what it leaves without that.

use crate::files::Files;
use crate::findings::Findings;
use crate::judging::{equal_front, note_absent, note_status};
use crate::outcome::Outcome;
use pdh_case_language::{Kind, Sweep};
use std::alloc::{AllocError, Global};

// The status where such a call fails in a run that would answer `status`.
fn failed_status(kind: Kind, status: u8) -> u8 {
    match kind {
        Kind::Size | Kind::Read => 3,
        Kind::Start | Kind::Append => 4,
        Kind::Write if status == 0 => 4,
        Kind::Write => status,
    }
}

// The text where a call for a file fails.
fn failed_text(alloc: Global, kind: Kind, name: &str) -> Result<String, AllocError> {
    let fault = match kind {
        Kind::Size | Kind::Read => "read fault: ",
        _ => "write fault: ",
    };
    format!(in alloc; "{fault}{name}\n")
}

// Notes that the text doesn't tell whose call failed.
fn note_text(line: usize, found: &Outcome, findings: &mut Findings) -> Result<(), AllocError> {
    let text = String::from_utf8_lossy(findings.alloc, found.text.as_slice())?;
    let text = text.as_str().trim_end();
    let failed = found.failed.as_str();
    let difference = format!(in findings.alloc; "says '{text}' where a call for '{failed}' fails")?;
    findings.note(line, difference.as_str())
}

// Whether these bytes are whole lines that tell slips.
fn are_slips(bytes: &[u8]) -> bool {
    let mut at_start = true;
    for place in 0..bytes.len() {
        if at_start && !bytes[place..].starts_with(b"slip ") {
            return false;
        }
        at_start = bytes[place] == b'\n';
    }
    at_start
}

// Whether a text is that of a call that failed, behind the slips that the whole text begins with and that were told by then.
fn tells_fault(whole: &[u8], text: &[u8], fault: &[u8]) -> bool {
    let before = &text[..text.len().saturating_sub(fault.len())];
    text.ends_with(fault) && whole.starts_with(before) && are_slips(before)
}

// The text names the file whose call failed, behind the slips that were told by then. Where the output takes no more, it is a front
// of the whole text.
fn judge_failed_text(
    sweep: Sweep,
    whole: &Outcome,
    found: &Outcome,
    findings: &mut Findings,
) -> Result<(), AllocError> {
    let text = found.text.as_slice();
    let wanted = failed_text(findings.alloc, sweep.kind, found.failed.as_str())?;
    let is_told = match sweep.kind {
        Kind::Write => whole.text.as_slice().starts_with(text),
        _ => tells_fault(whole.text.as_slice(), text, wanted.as_str().as_bytes()),
    };
    if is_told {
        return Ok(());
    }
    note_text(sweep.line, found, findings)
}

// Whether a file is as before or, where the run changes it, a front of what it would be.
fn is_part(found: &[u8], before: Option<&[u8]>, whole: Option<&[u8]>) -> bool {
    match (before, whole) {
        (Some(before), _) if before == found => true,
        (Some(before), Some(whole)) if before == whole => false,
        (_, Some(whole)) => whole.starts_with(found),
        _ => false,
    }
}

fn judge_part(
    line: usize,
    name: &str,
    found: &[u8],
    before: Option<&[u8]>,
    whole: Option<&[u8]>,
    findings: &mut Findings,
) -> Result<(), AllocError> {
    if is_part(found, before, whole) {
        return Ok(());
    }
    let same = equal_front(found, whole.unwrap_or(&[]));
    let difference = format!(in findings.alloc;
        "{name} is neither as before nor a front; the first {same} bytes are right"
    )?;
    findings.note(line, difference.as_str())
}

// Each file that is held is as before or, where the run changes it, a front of what it would be.
fn judge_parts(
    line: usize,
    before: &Files,
    whole: &Files,
    found: &Files,
    findings: &mut Findings,
) -> Result<(), AllocError> {
    for (name, bytes) in found.held.iter() {
        let name = name.as_str();
        judge_part(
            line,
            name,
            bytes.as_slice(),
            before.get(name),
            whole.get(name),
            findings,
        )?;
    }
    Ok(())
}

// Each file that was held is held still.
fn judge_held_still(
    line: usize,
    before: &Files,
    found: &Files,
    findings: &mut Findings,
) -> Result<(), AllocError> {
    for name in before.held.keys() {
        let name = name.as_str();
        if found.get(name).is_none() {
            note_absent(line, name, findings)?;
        }
    }
    Ok(())
}

/// Compares what a run left in which a call failed with what was there before, and with what the run leaves where that call
/// doesn't fail: the status is that of a failed call, the text names the file whose call failed, behind the slips that were
/// told by then, and each file is as before or, where the run changes it, a front of what it would be.
pub fn judge_failed(
    sweep: Sweep,
    before: &Files,
    whole: &Outcome,
    found: &Outcome,
    findings: &mut Findings,
) -> Result<(), AllocError> {
    let wanted = failed_status(sweep.kind, whole.status);
    if found.status != wanted {
        note_status(sweep.line, found.status, wanted, findings)?;
    }
    judge_failed_text(sweep, whole, found, findings)?;
    judge_parts(sweep.line, before, &whole.files, &found.files, findings)?;
    judge_held_still(sweep.line, before, &found.files, findings)
}
