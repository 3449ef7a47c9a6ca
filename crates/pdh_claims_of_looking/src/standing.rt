//! Of the nodes below the top that stand.

ghost use Rattle.std.specs.Prelude.{◌≡◌, [], ◌∷◌, IfOk};
ghost use Rattle.pdh_eframes.specs.Plans.{e2, e3, e4};
ghost use Rattle.pdh_standing.specs.Standing.{standing, tally_of, tributaries};

use pdh_candidates::Word;
use pdh_packed::Packed;
use pdh_standing::{Lower, find_lower};
use std::alloc::{AllocError, Global};

/// Two steps below the top the nodes count that stand below nodes that stand, and no others.
#[tactic(auto, unfolding(pdh_standing::specs::Standing::lower_in))]
pub fn lowest_level_not_looked_at(alloc: Global, line: &Packed) -> Result<Lower, AllocError>
    ensures { IfOk result (λ lower. lower.second ≡ tally_of e2 (standing e2 (tributaries e3 (standing e3 (tributaries e4 (line.now.bits ∷ [])))))) }
{
    find_lower(alloc, Word::E14, line)
}

/// One step below the top the nodes count that stand, and no others.
#[tactic(auto, unfolding(pdh_standing::specs::Standing::lower_in))]
pub fn nodes_that_fell_counted(alloc: Global, line: &Packed) -> Result<Lower, AllocError>
    ensures { IfOk result (λ lower. lower.first ≡ tally_of e3 (standing e3 (tributaries e4 (line.now.bits ∷ [])))) }
{
    find_lower(alloc, Word::E14, line)
}
