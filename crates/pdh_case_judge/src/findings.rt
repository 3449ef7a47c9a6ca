//! The differences that were found in a case.

use std::alloc::{AllocError, Global};

/// Differences as text, and the run that is being looked at.
#[derive(Drop)]
pub struct Findings {
    /// Where their memory comes from.
    pub alloc: Global,
    /// Which run of several it is, with a colon behind it.
    pub run: String,
    /// The differences, each with the line that expects otherwise.
    pub found: Vec<String>,
}

impl Findings {
    /// None yet.
    pub fn new(alloc: Global) -> Findings {
        Findings {
            alloc,
            run: String::new(alloc),
            found: Vec::new(alloc),
        }
    }

    /// Notes what differs from a line.
    pub fn note(&mut self, line: usize, difference: &str) -> Result<(), AllocError> {
        let run = self.run.as_str();
        let text = format!(in self.alloc; "line {line}: {run}{difference}")?;
        self.found.push(text)?;
        Ok(())
    }
}
