//! Of what a recording may be.

ghost use Rattle.std.specs.Prelude.{◌≡◌, false, codes, IfOk};
ghost use Rattle.pdh_candidates.specs.declared.word.Word.TheVariants.{E14};

use pdh_candidates::{Candidate, Trial, Word, all_words, first_that};
use std::alloc::{AllocError, Global};

/// A DS1 in extended superframes has the name `ds1-esf`.
pub fn extended_superframes_called_sf() -> &'static str
    ensures { result.now ≡ codes "ds1-esf" }
{
    Word::Ds1Esf.name()
}

/// Where the only candidate doesn't meet the test, none is found.
pub fn only_the_first_candidate_tried<T: Trial>(
    alloc: Global,
    trial: &T,
    candidate: &Candidate,
) -> Result<Option<Candidate>, AllocError>
    requires { T.met trial.now candidate.now ≡ false }
    ensures { IfOk result (λ found. found ≡ None) }
{
    first_that(alloc, trial, &[*candidate])
}

/// The deepest chain is tried first.
pub fn shallow_chains_first() -> Word
    ensures { result ≡ E14 }
{
    all_words()[0]
}
