//! The lines of the file of cases, and what each asks for.

use crate::fault::Fault;
use pdh_reporting::run;
use std::alloc::{AllocError, Global};
use std::fs::{self, Files};

// What a line asks for.
enum Step<'a> {
    // A run of `pdhreport` with these words.
    Run(&'a str),
    // The comparison of a file that a run wrote with the file that is wanted.
    Compare(&'a str, &'a str),
}

// What a line asks for: `run WORDS`, `compare FILE WANTED`, or nothing.
fn step_of(line: &str) -> Option<Step<'_>> {
    if let Some(words) = line.strip_prefix("run ") {
        return Some(Step::Run(words));
    }
    let (file, wanted) = line.strip_prefix("compare ")?.split_once(' ')?;
    Some(Step::Compare(file, wanted))
}

// The words of a run, the name of the program first.
fn words_of(alloc: Global, line: &str) -> Result<Vec<String>, AllocError> {
    let mut words = Vec::new(alloc);
    words.push(String::from_str(alloc, "pdhreport")?)?;
    for word in line.split(' ') {
        words.push(String::from_str(alloc, word)?)?;
    }
    Ok(words)
}

// Runs `pdhreport` as a line says, and tells its words and its status.
fn run_line<R: Files + Input + Print + Eprint + AllocGlobal + Drop>(
    rt: &R,
    line: &str,
) -> Result<(), Fault> {
    println!(rt; "$ pdhreport {line}")?;
    let alloc = rt.alloc();
    let words = words_of(alloc, line)?;
    let status = run(rt, alloc, &words, false);
    println!(rt; "status {status}")?;
    Ok(())
}

// Tells whether two files are alike.
fn compare<R: Files + Print + AllocGlobal>(rt: &R, file: &str, wanted: &str) -> Result<(), Fault> {
    let is_alike = fs::read(rt, file)?.as_slice() == fs::read(rt, wanted)?.as_slice();
    let words = if is_alike { "as wanted" } else { "differs" };
    println!(rt; "{wanted}: {words}")?;
    Ok(())
}

/// Runs all cases.
pub fn run_cases<R: Files + Input + Print + Eprint + AllocGlobal + Drop>(
    rt: &R,
) -> Result<(), Fault> {
    let cases = fs::read_to_string(rt, "cases")?;
    for line in cases.as_str().lines() {
        match step_of(line) {
            Some(Step::Run(words)) => run_line(rt, words)?,
            Some(Step::Compare(file, wanted)) => compare(rt, file, wanted)?,
            None => {}
        }
    }
    Ok(())
}
