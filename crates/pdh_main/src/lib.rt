//! What `main` of the program does, as a function that programs share.
//! It alone joins `run` with the real devices, and it knows no frame and no chain.
#![tactic(auto)]

use bitflags::Flags;
use pdh_edge::{Shelf, Sink};
use pdh_folder::{Folder, Out};
pub use pdh_ops::{Ran, run};
use pdh_watch::{Counter, First, Kind, Latch, Monitor};
use std::alloc::{AllocError, Global};
use std::fs::{File, Files};
use std::io::ErrorKind;
use std::process::ExitCode;
use std::{env, io};

/// Runs the program with its words over a shelf and a sink, with its fourteen monitors: a counter of each kind of event, in
/// the order of the kinds, the first loss, and the open alarms; or refuses where memory is wanting for these.
pub fn run_with_monitors<S: Shelf, K: Sink>(
    alloc: Global,
    words: &[String],
    shelf: S,
    out: K,
) -> Result<Ran<S, K>, AllocError> {
    let mut monitors: Vec<Box<dyn Monitor>> = Vec::new(alloc);
    for flag in Kind::flags() {
        monitors.push(Box::new(alloc, Counter::new(flag.value))?)?;
    }
    monitors.push(Box::new(alloc, First::new(Kind::LOST))?)?;
    monitors.push(Box::new(alloc, Latch::new())?)?;
    Ok(run(alloc, words, shelf, out, &mut monitors))
}

// The system's device that gives and takes nothing.
const NULL_DEVICE: &str = "/dev/null";

// Opens it three times, to be read alone: where the standard input, output or error isn't open, an open file takes its number,
// and no file that is opened later does. What is written to that number then fails.
fn hold_standard_numbers<R: Files>(rt: &R) -> io::Result<[R::File; 3]> {
    Ok([
        File::open(rt, NULL_DEVICE)?,
        File::open(rt, NULL_DEVICE)?,
        File::open(rt, NULL_DEVICE)?,
    ])
}

// Prints a line, and answers a status.
fn end(rt: &impl Print, line: &str, status: u8) -> ExitCode {
    let _ = println!(rt; "{line}");
    ExitCode::from(status)
}

/// Runs the program with its words, over the current folder and the standard output, and answers
/// the status with which it ends: that of the run; 14 where the system doesn't give the words, 1 where
/// memory is wanting for them or for the monitors, or 3 where the null device can't be opened. These
/// print their line here, and no file was touched.
///
/// A standard output that isn't open fails to take the text, and never shares its number with a file.
pub fn pdh_main(rt: HostRuntime) -> ExitCode {
    let Ok(_held) = hold_standard_numbers(&rt) else {
        return end(&rt, "read fault: /dev/null", 3);
    };
    let words = match env::args(&rt) {
        Ok(words) => words,
        Err(e) if e.kind() == ErrorKind::OutOfMemory => return end(&rt, "memory", 1),
        Err(_) => return end(&rt, "words: not given", 14),
    };
    let Ok(words) = words.skip(1).collect::<Vec<String>>(rt.alloc()) else {
        return end(&rt, "memory", 1);
    };
    let Ok(files) = rt.clone() else {
        return end(&rt, "memory", 1);
    };
    let Ok(print) = rt.clone() else {
        return end(&rt, "memory", 1);
    };
    let Ok(ran) = run_with_monitors(
        rt.alloc(),
        &words,
        Folder::new(rt.alloc(), files),
        Out::new(print),
    ) else {
        return end(&rt, "memory", 1);
    };
    ExitCode::from(ran.status)
}
