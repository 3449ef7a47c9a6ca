//! The program `pdhreport`: tells what a recorded line is and what happened on it.
//! It joins `run` with the real devices.
#![tactic(auto)]

use pdh_reporting::run;
use std::fs::{File, Files};
use std::io::{ErrorKind, IsTerminal};
use std::process::ExitCode;
use std::{env, io};

// The system's device that gives and takes nothing.
const NULL_DEVICE: &str = "/dev/null";

// Opens it three times, to be read alone: where the standard input, output or error isn't open, an open file takes its number,
// and no file that is opened later does. What is written to that number then fails.
fn hold_standard_numbers<R: Files>(rt: &R) -> io::Result<[R::File; 3]> {
    Ok([
        File::open(rt, NULL_DEVICE)?,
        File::open(rt, NULL_DEVICE)?,
        File::open(rt, NULL_DEVICE)?,
    ])
}

// Tells why nothing was done, and answers the status.
fn stop(rt: &impl Eprint, why: &str, status: u8) -> ExitCode {
    let _ = eprintln!(rt; "pdhreport: {why}");
    ExitCode::from(status)
}

fn main(rt: HostRuntime) -> ExitCode {
    let Ok(_held) = hold_standard_numbers(&rt) else {
        return stop(&rt, "/dev/null: can't be read at byte 0", 3);
    };
    let words = match env::args(&rt) {
        Ok(words) => words,
        Err(e) if e.kind() == ErrorKind::OutOfMemory => return stop(&rt, "out of memory", 3),
        Err(_) => return stop(&rt, "the words aren't text", 2),
    };
    let Ok(words) = words.collect::<Vec<String>>(rt.alloc()) else {
        return stop(&rt, "out of memory", 3);
    };
    let shows_progress = rt.stderr().is_terminal();
    ExitCode::from(run(&rt, rt.alloc(), &words, shows_progress))
}
