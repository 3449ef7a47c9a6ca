//! Faults.

use std::alloc::AllocError;
use std::io;
use thiserror::Error;

/// Why cases can't be run.
#[derive(Debug, Drop, Error)]
pub enum Fault {
    /// A file can't be read, or the system took no text.
    #[error("input or output: {0}")]
    System(#[from] io::Error),
    /// Memory ran out.
    #[error("memory")]
    Memory(#[from(alloc)] AllocError),
}
