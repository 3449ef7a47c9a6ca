//! The cases that were read so far.

use crate::case::{Case, Cut, Given, Item, Kind, Run, Said, Sweep, Want, Wanted};
use crate::fault::Fault;
use std::alloc::{AllocError, Global};

// What the last line was, apart from text: a line of text goes there.
#[derive(Clone, Copy, PartialEq, Eq)]
enum Block {
    Other,
    Given,
    Run,
    Want,
}

/// Cases, of which the last is still being read, and what its next run is given.
#[derive(Drop)]
pub struct Reader {
    alloc: Global,
    cases: Vec<Case>,
    givens: Vec<Given>,
    block: Block,
}

// Each run of a case has its status, as far as the case was read.
fn check_last_run(case: &Case) -> Result<(), Fault> {
    match case.runs.last() {
        Some(run) if run.status.is_none() => Err(Fault::NoStatus),
        _ => Ok(()),
    }
}

// A case has runs, and each has its status.
fn check_case(case: &Case) -> Result<(), Fault> {
    if case.runs.is_empty() {
        return Err(Fault::NotWhole);
    }
    check_last_run(case)
}

// Adds an item to the files that a run is given.
fn extend_given(given: Option<&mut Given>, item: Item) -> Result<(), Fault> {
    match given {
        Some(Given::File { items, .. }) => Ok(items.push(item)?),
        _ => Err(Fault::NoText),
    }
}

// Adds an item to the files that are expected.
fn extend_want(want: Option<&mut Want>, item: Item) -> Result<(), Fault> {
    match want {
        Some(
            Want {
                wanted: Wanted::Holds { items },
                ..
            },
        ) => Ok(items.push(item)?),
        _ => Err(Fault::NoText),
    }
}

// A run that has no row of words yet, and of which nothing is expected.
fn run_of(alloc: Global, line: usize, givens: Vec<Given>) -> Run {
    Run {
        line,
        givens,
        rows: Vec::new(alloc),
        status: None,
        says: Vec::new(alloc),
        wants: Vec::new(alloc),
        sweeps: Vec::new(alloc),
        cuts: Vec::new(alloc),
    }
}

impl Reader {
    /// No case yet.
    pub fn new(alloc: Global) -> Reader {
        Reader {
            alloc,
            cases: Vec::new(alloc),
            givens: Vec::new(alloc),
            block: Block::Other,
        }
    }

    // Ends the case that is being read, where there is one.
    fn end_case(&self) -> Result<(), Fault> {
        if !self.givens.is_empty() {
            return Err(Fault::NotWhole);
        }
        match self.cases.last() {
            Some(case) => check_case(case),
            None => Ok(()),
        }
    }

    /// Begins a case.
    pub fn begin_case(&mut self, name: &str) -> Result<(), Fault> {
        self.end_case()?;
        let name = String::from_str(self.alloc, name)?;
        let runs = Vec::new(self.alloc);
        self.cases.push(Case { name, runs })?;
        self.block = Block::Other;
        Ok(())
    }

    /// Adds what the next run is given.
    pub fn add_given(&mut self, given: Given) -> Result<(), Fault> {
        if self.cases.is_empty() {
            return Err(Fault::NoCase);
        }
        self.givens.push(given)?;
        self.block = Block::Given;
        Ok(())
    }

    // Begins a run.
    fn push_run(&mut self, line: usize) -> Result<(), Fault> {
        let givens = std::mem::replace(&mut self.givens, Vec::new(self.alloc));
        let run = run_of(self.alloc, line, givens);
        let Some(case) = self.cases.last_mut() else {
            return Err(Fault::NoCase);
        };
        check_last_run(case)?;
        case.runs.push(run)?;
        self.block = Block::Run;
        Ok(())
    }

    /// Begins a run, or adds a row to the one that the line above begins.
    pub fn add_row(&mut self, line: usize, words: Vec<String>) -> Result<(), Fault> {
        if self.block != Block::Run {
            self.push_run(line)?;
        }
        let run = self.last_run()?;
        run.rows.push(words)?;
        Ok(())
    }

    // The run that is being read.
    fn last_run(&mut self) -> Result<&mut Run, Fault> {
        let Some(case) = self.cases.last_mut() else {
            return Err(Fault::NoCase);
        };
        case.runs.last_mut().ok_or(Fault::NoRun)
    }

    // The run of which something is expected.
    fn judged_run(&mut self) -> Result<&mut Run, Fault> {
        self.block = Block::Other;
        self.last_run()
    }

    /// Sets the status that is expected.
    pub fn set_status(&mut self, line: usize, status: u8) -> Result<(), Fault> {
        let run = self.judged_run()?;
        if run.status.is_some() {
            return Err(Fault::NoStatus);
        }
        run.status = Some((line, status));
        Ok(())
    }

    /// Adds a line of the text.
    pub fn add_said(&mut self, line: usize, text: &str) -> Result<(), Fault> {
        let text = String::from_str(self.alloc, text)?;
        let run = self.judged_run()?;
        run.says.push(Said { line, text })?;
        Ok(())
    }

    /// Adds what is expected of files.
    pub fn add_want(&mut self, want: Want) -> Result<(), Fault> {
        self.judged_run()?.wants.push(want)?;
        self.block = Block::Want;
        Ok(())
    }

    /// Has the run run again for each call of a kind.
    pub fn add_sweep(&mut self, line: usize, kind: Kind) -> Result<(), Fault> {
        self.judged_run()?.sweeps.push(Sweep { line, kind })?;
        Ok(())
    }

    /// Has the run run again for each front of a file, from one of so many bytes on.
    pub fn add_cut(&mut self, line: usize, name: &str, least: usize) -> Result<(), Fault> {
        let name = String::from_str(self.alloc, name)?;
        self.judged_run()?.cuts.push(Cut { line, name, least })?;
        Ok(())
    }

    // The item of a text and its end.
    fn text_item(&self, text: &str, end: &str) -> Result<Item, AllocError> {
        let mut bytes = Vec::from_slice(self.alloc, text.as_bytes())?;
        bytes.extend_from_slice(end.as_bytes())?;
        Ok(Item::Bytes { bytes, times: 1 })
    }

    /// Adds text to the file above.
    pub fn add_text(&mut self, text: &str, end: &str) -> Result<(), Fault> {
        let item = self.text_item(text, end)?;
        match self.block {
            Block::Other | Block::Run => Err(Fault::NoText),
            Block::Given => extend_given(self.givens.last_mut(), item),
            Block::Want => extend_want(self.last_run()?.wants.last_mut(), item),
        }
    }

    /// The cases, where the last one is whole.
    pub fn finish(self) -> Result<Vec<Case>, Fault> {
        self.end_case()?;
        Ok(self.cases)
    }
}
