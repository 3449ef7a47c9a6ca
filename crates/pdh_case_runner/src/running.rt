//! The running of the program over files in memory.

use crate::performing::perform;
use crate::watched::Watched;
use pdh_case_judge::{Files, Outcome, content_of, known_names};
use pdh_case_language::{Given, Kind, Run};
use pdh_edge::{Call, MemShelf, MemSink, Shelf, Sink};
use pdh_main::Ran;
use std::alloc::{AllocError, Global};
use std::collections::BTreeSet;

// The room that each file gets beside twice what all files hold, and the room of the output, in bytes.
const ROOM: u64 = 65_536;

// The most that a file gets for what all files hold. A case whose outputs are larger says their room.
const MOST_ROOM: u64 = 16_777_216;

// ---- what a run is given

fn set_files(files: &mut Files, names: &[String], given: &Given) -> Result<(), AllocError> {
    let Given::File { items, .. } = given else {
        return Ok(());
    };
    for (place, name) in names.iter().enumerate() {
        let bytes = content_of(files, items.as_slice(), place)?;
        files.set(name.as_str(), bytes)?;
    }
    Ok(())
}

fn remove_files(files: &mut Files, names: &[String]) {
    for name in names {
        files.remove(name.as_str());
    }
}

/// The files that a run finds: those before it, changed by what it is given.
pub fn prepared(run: &Run, before: &Files) -> Result<Files, AllocError> {
    let mut files = before.duplicate()?;
    for given in run.givens.iter() {
        match given {
            Given::File { names, .. } => set_files(&mut files, names.as_slice(), given)?,
            Given::Gone { names } => remove_files(&mut files, names.as_slice()),
            Given::Room { .. } | Given::Monitors { .. } | Given::Fail { .. } => (),
        }
    }
    Ok(files)
}

// ---- the shelf and the output

fn hold_all(shelf: &mut MemShelf, files: &Files) -> Result<(), AllocError> {
    for (name, bytes) in files.held.iter() {
        shelf.hold(name.as_str(), bytes.as_slice())?;
    }
    Ok(())
}

fn make_rooms(
    shelf: &mut MemShelf,
    known: &BTreeSet<String>,
    bytes: u64,
) -> Result<(), AllocError> {
    for name in known.iter() {
        shelf.room(name.as_str(), bytes)?;
    }
    Ok(())
}

fn set_rooms(shelf: &mut MemShelf, names: &[String], bytes: u64) -> Result<(), AllocError> {
    for name in names {
        shelf.room(name.as_str(), bytes)?;
    }
    Ok(())
}

fn set_given_rooms(shelf: &mut MemShelf, run: &Run) -> Result<(), AllocError> {
    for given in run.givens.iter() {
        if let Given::Room { names, bytes } = given {
            set_rooms(shelf, names.as_slice(), *bytes)?;
        }
    }
    Ok(())
}

fn shelf_of(
    alloc: Global,
    run: &Run,
    files: &Files,
    known: &BTreeSet<String>,
) -> Result<MemShelf, AllocError> {
    let mut shelf = MemShelf::open(alloc)?;
    hold_all(&mut shelf, files)?;
    let held = files.total().saturating_mul(2).min(MOST_ROOM);
    let room = held.saturating_add(ROOM);
    make_rooms(&mut shelf, known, room)?;
    set_given_rooms(&mut shelf, run)?;
    Ok(shelf)
}

// Lets a call fail.
fn let_fail(
    shelf: &mut MemShelf,
    sink: &mut MemSink,
    kind: Kind,
    number: u64,
) -> Result<(), AllocError> {
    match kind {
        Kind::Size => shelf.fail(Call::Size, number),
        Kind::Read => shelf.fail(Call::Read, number),
        Kind::Start => shelf.fail(Call::Start, number),
        Kind::Append => shelf.fail(Call::Append, number),
        Kind::Write => sink.fail(number),
    }
}

fn let_given_fail(shelf: &mut MemShelf, sink: &mut MemSink, run: &Run) -> Result<(), AllocError> {
    for given in run.givens.iter() {
        if let Given::Fail { kind, number } = given {
            let_fail(shelf, sink, *kind, *number)?;
        }
    }
    Ok(())
}

// ---- the run

fn files_on(
    alloc: Global,
    shelf: &MemShelf,
    known: &BTreeSet<String>,
) -> Result<Files, AllocError> {
    let mut files = Files::new(alloc);
    for name in known.iter() {
        if let Some(bytes) = shelf.file(name.as_str()) {
            files.copy(name.as_str(), bytes)?;
        }
    }
    Ok(files)
}

fn faults(ran: &Ran<Watched, MemSink>) -> u64 {
    let reads = ran.shelf.read_faults();
    let writes = ran.shelf.write_faults();
    reads
        .saturating_add(writes)
        .saturating_add(ran.out.faults())
}

fn failed_name(alloc: Global, shelf: &Watched) -> Result<String, AllocError> {
    match &shelf.failed {
        Some(name) => String::from_str(alloc, name.as_str()),
        None => Ok(String::new(alloc)),
    }
}

// What the program left.
fn outcome_of(
    alloc: Global,
    ran: &Ran<Watched, MemSink>,
    known: &BTreeSet<String>,
) -> Result<Outcome, AllocError> {
    let text = Vec::from_slice(alloc, ran.out.written())?;
    let files = files_on(alloc, &ran.shelf.shelf, known)?;
    let failed = failed_name(alloc, &ran.shelf)?;
    Ok(Outcome {
        status: ran.status,
        text,
        files,
        faults: faults(ran),
        failed,
    })
}

// Runs the program over a shelf that holds the files and makes room for what is known.
fn run_known(
    alloc: Global,
    run: &Run,
    row: &[String],
    shelf: MemShelf,
    fails: Option<(Kind, u64)>,
) -> Result<Ran<Watched, MemSink>, AllocError> {
    let mut shelf = shelf;
    let mut sink = MemSink::open(alloc, ROOM)?;
    let_given_fail(&mut shelf, &mut sink, run)?;
    if let Some((kind, number)) = fails {
        let_fail(&mut shelf, &mut sink, kind, number)?;
    }
    perform(alloc, run, row, shelf, sink)
}

/// Runs the program with a row of words over these files, with one more failing call.
pub fn run_over(
    alloc: Global,
    run: &Run,
    row: &[String],
    files: &Files,
    fails: Option<(Kind, u64)>,
) -> Result<Outcome, AllocError> {
    let known = known_names(alloc, run, files)?;
    let shelf = shelf_of(alloc, run, files, &known)?;
    let ran = run_known(alloc, run, row, shelf, fails)?;
    outcome_of(alloc, &ran, &known)
}
