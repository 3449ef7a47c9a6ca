//! The names of the files that a run may touch.

use crate::files::Files;
use pdh_case_language::{Given, Run, names_of};
use std::alloc::{AllocError, Global};
use std::collections::BTreeSet;

// The files that the program writes.
const OUTPUTS: [&str; 6] = [
    "line.bits",
    "bent.bits",
    "schedule.txt",
    "o01..o64.bits",
    "e1.bits",
    "payload.out",
];

fn add_names(known: &mut BTreeSet<String>, names: &[String]) -> Result<(), AllocError> {
    for name in names {
        known.insert(name.clone()?)?;
    }
    Ok(())
}

fn add_outputs(known: &mut BTreeSet<String>, alloc: Global) -> Result<(), AllocError> {
    for output in OUTPUTS {
        if let Ok(names) = names_of(alloc, output) {
            add_names(known, names.as_slice())?;
        }
    }
    Ok(())
}

fn add_held(known: &mut BTreeSet<String>, files: &Files) -> Result<(), AllocError> {
    for name in files.held.keys() {
        known.insert(name.clone()?)?;
    }
    Ok(())
}

fn add_rooms(known: &mut BTreeSet<String>, run: &Run) -> Result<(), AllocError> {
    for given in run.givens.iter() {
        if let Given::Room { names, .. } = given {
            add_names(known, names.as_slice())?;
        }
    }
    Ok(())
}

/// The names of a run's files: those that are held, those that the program writes, and those that the case names.
pub fn known_names(
    alloc: Global,
    run: &Run,
    files: &Files,
) -> Result<BTreeSet<String>, AllocError> {
    let mut known = BTreeSet::new(alloc);
    add_outputs(&mut known, alloc)?;
    add_held(&mut known, files)?;
    add_rooms(&mut known, run)?;
    for want in run.wants.iter() {
        add_names(&mut known, want.names.as_slice())?;
    }
    Ok(known)
}
