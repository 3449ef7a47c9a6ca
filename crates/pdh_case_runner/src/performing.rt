//! The program's own call.

use crate::watched::Watched;
use pdh_case_language::{Given, Observer, Run};
use pdh_edge::{MemShelf, MemSink};
use pdh_main::{Ran, run, run_with_monitors};
use pdh_watch::{Counter, First, Latch, Monitor};
use std::alloc::{AllocError, Global};

// Runs the program with these monitors.
fn perform_with(
    alloc: Global,
    observers: &[Observer],
    words: &[String],
    shelf: Watched,
    sink: MemSink,
) -> Result<Ran<Watched, MemSink>, AllocError> {
    let mut monitors: Vec<Box<dyn Monitor>> = Vec::new(alloc);
    for observer in observers {
        match *observer {
            Observer::Counter { kind } => monitors.push(Box::new(alloc, Counter::new(kind))?)?,
            Observer::First { kind } => monitors.push(Box::new(alloc, First::new(kind))?)?,
            Observer::Latch => monitors.push(Box::new(alloc, Latch::new())?)?,
        }
    }
    Ok(run(alloc, words, shelf, sink, &mut monitors))
}

// The monitors that a run is given, where it is given some.
fn observers_of(given: &Given) -> Option<&[Observer]> {
    match given {
        Given::Monitors { monitors } => Some(monitors.as_slice()),
        _ => None,
    }
}

/// Runs the program with these words, with the monitors that the run is given or with its own. None of its clauses is used
/// here.
pub fn perform(
    alloc: Global,
    run: &Run,
    words: &[String],
    shelf: MemShelf,
    sink: MemSink,
) -> Result<Ran<Watched, MemSink>, AllocError> {
    let shelf = Watched {
        shelf,
        failed: None,
    };
    match run.givens.iter().find_map(observers_of) {
        Some(observers) => perform_with(alloc, observers, words, shelf, sink),
        None => run_with_monitors(alloc, words, shelf, sink),
    }
}
