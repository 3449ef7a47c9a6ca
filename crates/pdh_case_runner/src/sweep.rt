//! A run again and again: with each call failing, and with each front of a file.

use crate::running::run_over;
use pdh_case_judge::{Files, Findings, Outcome, judge, judge_failed};
use pdh_case_language::{Cut, Kind, Run, Sweep};
use std::alloc::{AllocError, Global};

// The most calls of a kind.
const MOST_CALLS: u64 = 100_000;

// A run whose calls are let fail: its row of words, the files that it finds, and what it leaves where no call is let fail.
#[derive(Clone, Copy)]
struct Swept<'a> {
    run: &'a Run,
    row: &'a [String],
    before: &'a Files,
    whole: &'a Outcome,
}

// Lets the call of the kind with that number fail, and answers whether there is such a call.
fn fail_one(
    sweep: Sweep,
    number: u64,
    swept: &Swept,
    findings: &mut Findings,
) -> Result<bool, AllocError> {
    let fails = Some((sweep.kind, number));
    let found = run_over(findings.alloc, swept.run, swept.row, swept.before, fails)?;
    if found.faults <= swept.whole.faults {
        return Ok(false);
    }
    judge_failed(sweep, swept.before, swept.whole, &found, findings)?;
    Ok(true)
}

// What is told before the differences of a run.
fn run_name(alloc: Global, row: &str, kind: Kind, number: u64) -> Result<String, AllocError> {
    let kind = kind.word();
    format!(in alloc; "{row}{kind} {number} fails: ")
}

// Lets each call of the kind fail, in a run each. At least one call has to be there.
fn sweep_kind(sweep: Sweep, swept: &Swept, findings: &mut Findings) -> Result<(), AllocError> {
    let row = findings.run.clone()?;
    for number in 0..MOST_CALLS {
        findings.run = run_name(findings.alloc, row.as_str(), sweep.kind, number)?;
        if !fail_one(sweep, number, swept, findings)? {
            if number == 0 {
                findings.note(sweep.line, "there is no such call")?;
            }
            findings.run = row;
            return Ok(());
        }
    }
    findings.note(sweep.line, "there are too many calls")?;
    findings.run = row;
    Ok(())
}

/// Runs again for each kind of calls that is asked for, once for each call, and compares each time.
pub fn sweep_all(
    run: &Run,
    row: &[String],
    before: &Files,
    whole: &Outcome,
    findings: &mut Findings,
) -> Result<(), AllocError> {
    let swept = Swept {
        run,
        row,
        before,
        whole,
    };
    for sweep in run.sweeps.iter() {
        sweep_kind(*sweep, &swept, findings)?;
    }
    Ok(())
}

// Runs with the first bytes of a file, and compares.
fn cut_one(
    run: &Run,
    row: &[String],
    name: &str,
    front: &[u8],
    before: &Files,
    findings: &mut Findings,
) -> Result<(), AllocError> {
    let mut files = before.duplicate()?;
    files.copy(name, front)?;
    let found = run_over(findings.alloc, run, row, &files, None)?;
    judge(run, row, &files, &found, findings)
}

fn cut_name(alloc: Global, row: &str, bytes: usize, name: &str) -> Result<String, AllocError> {
    format!(in alloc; "{row}{bytes} bytes of {name}: ")
}

// Runs with each front of a file that has at least the bytes that are asked for.
fn cut(
    run: &Run,
    row: &[String],
    cut: &Cut,
    before: &Files,
    findings: &mut Findings,
) -> Result<(), AllocError> {
    let name = cut.name.as_str();
    let whole = before.get(name).unwrap_or(&[]);
    if cut.least > whole.len() {
        return findings.note(cut.line, "the file has fewer bytes");
    }
    let row_name = findings.run.clone()?;
    for bytes in cut.least..=whole.len() {
        findings.run = cut_name(findings.alloc, row_name.as_str(), bytes, name)?;
        cut_one(run, row, name, &whole[..bytes], before, findings)?;
    }
    findings.run = row_name;
    Ok(())
}

/// Runs again for each front of the files that are asked for, and compares each time with what is expected of this run.
pub fn cut_all(
    run: &Run,
    row: &[String],
    before: &Files,
    findings: &mut Findings,
) -> Result<(), AllocError> {
    for asked in run.cuts.iter() {
        cut(run, row, asked, before, findings)?;
    }
    Ok(())
}
