//! Files of cases, from the folder in which the program runs.

use crate::trial::judge_case;
use pdh_case_judge::show;
use pdh_case_language::{Case, CaseFault, read};
use std::alloc::AllocError;
use std::rt::{Env, Files};
use std::{env, fs, io};
use thiserror::Error;

// Why cases can't be judged.
#[derive(Debug, Drop, Error)]
enum Fault {
    /// No file is named.
    #[error("usage: pdh_cases FILE ..")]
    NoFile,
    /// A file's text isn't a list of cases.
    #[error("{name}: {fault}")]
    Cases {
        /// The file.
        name: String,
        /// Its first fault.
        fault: CaseFault,
    },
    /// A file can't be read, or isn't text.
    #[error("{name}: not read")]
    Unread {
        /// The file.
        name: String,
    },
    /// The system gave no words, or took no text.
    #[error("input or output: {0}")]
    System(#[from] io::Error),
    /// Memory ran out.
    #[error("memory")]
    Memory(#[from(alloc)] AllocError),
}

// How many cases there are, and how many of them differ.
#[derive(Clone, Copy)]
struct Tally {
    cases: u64,
    differ: u64,
}

// The cases of a file.
fn cases_of<R: Files + AllocGlobal>(rt: &R, name: &str) -> Result<Vec<Case>, Fault> {
    let alloc = rt.alloc();
    let Ok(text) = fs::read_to_string(rt, name) else {
        let name = String::from_str(alloc, name)?;
        return Err(Fault::Unread { name });
    };
    match read(alloc, text.as_str()) {
        Ok(cases) => Ok(cases),
        Err(fault) => {
            let name = String::from_str(alloc, name)?;
            Err(Fault::Cases { name, fault })
        }
    }
}

// Judges the cases of a file, and counts them.
fn judge_file<R: Files + Print + AllocGlobal>(
    rt: &R,
    name: &str,
    tally: &mut Tally,
) -> Result<(), Fault> {
    for case in cases_of(rt, name)?.iter() {
        let differences = judge_case(rt.alloc(), case)?;
        show(rt, case.name.as_str(), differences.as_slice())?;
        tally.cases = tally.cases.saturating_add(1);
        if !differences.is_empty() {
            tally.differ = tally.differ.saturating_add(1);
        }
    }
    Ok(())
}

fn judge_files<R: Files + Env + Print + AllocGlobal>(rt: &R) -> Result<Tally, Fault> {
    let mut tally = Tally {
        cases: 0,
        differ: 0,
    };
    let words = env::args(rt)?;
    if words.len() < 2 {
        return Err(Fault::NoFile);
    }
    for name in words.skip(1) {
        judge_file(rt, name.as_str(), &mut tally)?;
    }
    let Tally { cases, differ } = tally;
    println!(rt; "{cases} cases, {differ} differ")?;
    Ok(tally)
}

/// Judges the cases of the files that the program's words name, and answers its status: 0 where nothing differs, 1 where
/// something does, and 2 where no file is named or not all could be judged.
pub fn judge_all<R: Files + Env + Print + AllocGlobal>(rt: &R) -> u8 {
    match judge_files(rt) {
        Ok(tally) if tally.differ == 0 => 0,
        Ok(_) => 1,
        Err(fault) => {
            let _ = println!(rt; "{fault}");
            2
        }
    }
}
