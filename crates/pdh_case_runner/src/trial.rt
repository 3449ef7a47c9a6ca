//! A case, run and judged.

use crate::running::{prepared, run_over};
use crate::sweep::{cut_all, sweep_all};
use pdh_case_judge::{Files, Findings, joined, judge};
use pdh_case_language::{Case, Run};
use std::alloc::{AllocError, Global};

// The words of a row, with a colon behind them.
fn row_name(alloc: Global, row: &[String]) -> Result<String, AllocError> {
    let mut name = joined(alloc, row)?;
    name.push_str(": ")?;
    Ok(name)
}

// Judges a row of words of a run over these files, and answers those that it leaves.
fn judge_row(
    run: &Run,
    row: &[String],
    files: &Files,
    findings: &mut Findings,
) -> Result<Files, AllocError> {
    let whole = run_over(findings.alloc, run, row, files, None)?;
    judge(run, row, files, &whole, findings)?;
    sweep_all(run, row, files, &whole, findings)?;
    cut_all(run, row, files, findings)?;
    Ok(whole.files)
}

// Judges a run over the files that the one before it left, and answers those that its last row leaves.
fn judge_run(run: &Run, before: &Files, findings: &mut Findings) -> Result<Files, AllocError> {
    let files = prepared(run, before)?;
    let mut left = files.duplicate()?;
    for row in run.rows.iter() {
        if run.rows.len() > 1 {
            findings.run = row_name(findings.alloc, row.as_slice())?;
        }
        left = judge_row(run, row.as_slice(), &files, findings)?;
    }
    findings.run = String::new(findings.alloc);
    Ok(left)
}

/// Runs a case, and answers what differs from what it expects.
pub fn judge_case(alloc: Global, case: &Case) -> Result<Vec<String>, AllocError> {
    let mut findings = Findings::new(alloc);
    let mut files = Files::new(alloc);
    for run in case.runs.iter() {
        files = judge_run(run, &files, &mut findings)?;
    }
    Ok(findings.found)
}
