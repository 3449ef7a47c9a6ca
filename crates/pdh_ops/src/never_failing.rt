//! What a run answers over devices that never fail.

ghost use Rattle.std.specs.Prelude.{map};
ghost use Rattle.std.specs.String.{string_bytes};
ghost use Rattle.pdh_words.specs.Commands.{command_of};
ghost use Rattle.pdh_ops.specs.Run.{CompletesAlways};

use crate::program::{Ran, run};
use pdh_edge::{NeverFails, Shelf};
use pdh_watch::Monitor;
use std::alloc::Global;

/// `run` over a shelf and a sink no call of which fails: a law. Where all inputs of the command are told, the status is exactly
/// that of what they come to, or that of want of memory; so there is no premise about faults.
pub fn run_never_failing(
    alloc: Global,
    words: &[String],
    shelf: NeverFails,
    out: NeverFails,
    monitors: &mut Vec<Box<dyn Monitor>>,
) -> Ran<NeverFails, NeverFails>
    ensures { CompletesAlways (command_of (map string_bytes words.now)) (⟦<NeverFails as Shelf>⟧.state shelf) result.status }
{
    run(alloc, words, shelf, out, monitors)
}
