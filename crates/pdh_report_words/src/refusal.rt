//! Why words ask for nothing.

use crate::names::Named;
use clap::Error;
use clap::error::ErrorKind;
use std::alloc::AllocError;

/// Why words ask for nothing.
#[derive(Debug, Drop)]
pub enum Refusal {
    /// The help, the version, or what is wrong with them.
    Told(Error),
    /// Two files that they name are one.
    OneFile(Named, Named),
    /// Memory was wanting.
    OutOfMemory,
}

impl From<Error> for Refusal {
    fn from(error: Error) -> Refusal {
        if error.kind() == ErrorKind::OutOfMemory {
            return Refusal::OutOfMemory;
        }
        Refusal::Told(error)
    }
}

impl From<AllocError> for Refusal {
    fn from(_error: AllocError) -> Refusal {
        Refusal::OutOfMemory
    }
}
