//! How far the reading has come.

use pdh_following::Progress;
use pdh_report_text::grouped;
use std::alloc::{AllocError, Global};

// How many bits lie between two lines of progress.
const STEP: u64 = 134_217_728;

// How many bits have a mebibyte.
const MEBIBYTE: u64 = 8_388_608;

/// Tells on the standard error how far the reading of a recording has come, if it is shown.
#[derive(Drop)]
pub(crate) struct ProgressLine<'a, E: Eprint> {
    pub(crate) alloc: Global,
    pub(crate) rt: &'a E,
    pub(crate) file: &'a str,
    /// How many bits there are, if that is known.
    pub(crate) bits: Option<u64>,
    /// It is shown.
    pub(crate) shown: bool,
    /// The bits at which it is told next.
    pub(crate) next: u64,
    /// How long the longest line was.
    pub(crate) width: usize,
}

// The share of the bits that were read, if it is known.
fn share(alloc: Global, bits: Option<u64>, done: u64) -> Result<String, AllocError> {
    let Some(all) = bits else {
        return Ok(String::new(alloc));
    };
    let share = u128::from(done) * 100 / u128::from(all.max(1));
    format!(in alloc; " {share} %,")
}

impl<'a, E: Eprint> ProgressLine<'a, E> {
    // The line that tells it.
    fn line(&self, done: u64, events: u64) -> Result<String, AllocError> {
        let file = self.file;
        let size = grouped(self.alloc, done / MEBIBYTE)?;
        let share = share(self.alloc, self.bits, done)?;
        let events = grouped(self.alloc, events)?;
        format!(in self.alloc; "{file}: {size} MiB,{share} {events} events")
    }

    /// Wipes the line.
    pub(crate) fn wipe(&mut self) {
        if self.width == 0 {
            return;
        }
        let width = self.width;
        let _ = eprint!(self.rt; "\r{:width$}\r", "");
        self.width = 0;
    }
}

impl<'a, E: Eprint> Progress for ProgressLine<'a, E> {
    fn reached(&mut self, done: u64, events: u64) {
        if !self.shown || done < self.next {
            return;
        }
        self.next = done.saturating_add(STEP);
        let Ok(line) = self.line(done, events) else {
            return;
        };
        self.width = self.width.max(line.len());
        let _ = eprint!(self.rt; "\r{line}");
    }
}
