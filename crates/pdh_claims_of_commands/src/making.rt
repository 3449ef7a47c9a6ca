//! What callers may rely on of the commands that make lines.

ghost use Rattle.std.specs.Prelude.{◌≡◌, ◌<◌, Err, IfSome};
ghost use Rattle.pdh_answers.specs.declared.answer.Stop.TheVariants.{Memory};

use pdh_chain::Chain;
use pdh_edge::Shelf;
use pdh_making::Mux;
use pdh_runner::{Ended, Nobody, perform};
use std::alloc::Global;

/// Where memory is wanting the files stay as they were.
pub fn every_event_answered_as_want_of_memory<S: Shelf>(
    alloc: Global,
    chain: Chain,
    feac: Option<u8>,
    shelf: S,
) -> Ended<S>
    requires { IfSome feac (λ code. code < 64) }
    ensures { result.answer ≡ Err Memory → (S.state result.shelf).told ≡ (S.state shelf).told }
{
    perform(alloc, &Mux { chain, feac }, shelf, &mut Nobody)
}
