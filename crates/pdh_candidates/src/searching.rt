//! The search for a candidate.

ghost use Rattle.std.specs.Prelude.{◌≡◌, Bool, IfOk, find};
ghost use Rattle.pdh_candidates.specs.declared.candidate.Candidate.{Candidate};

use crate::Candidate;
use std::alloc::{AllocError, Global};

/// A test of candidates.
pub trait Trial {
    /// Whether a candidate meets it.
    ghost met: { Self → Candidate → Bool };

    /// Tries a candidate; or it finds no memory.
    fn meets(&self, alloc: Global, candidate: &Candidate) -> Result<bool, AllocError>
        ensures { IfOk result (λ meets. meets ≡ met self.now candidate.now) };
}

/// The first candidate of a list that meets a test, if one does; or the refusal of memory.
pub fn first_that<T: Trial>(
    alloc: Global,
    trial: &T,
    candidates: &[Candidate],
) -> Result<Option<Candidate>, AllocError>
    ensures { IfOk result (λ found. found ≡ find (T.met trial.now) candidates.now) }
{
    for candidate in candidates {
        if trial.meets(alloc, candidate)? {
            return Ok(Some(*candidate));
        }
    }
    Ok(None)
}
