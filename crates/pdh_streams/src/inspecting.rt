//! `inspect e1`: the events of a framed 2048 kbit/s line's file, shown to the monitors.

ghost use Rattle.std.specs.Prelude.{◌≡◌};
ghost use Rattle.pdh_answers.specs.declared.file.File.TheVariants.{E1Line};
ghost use Rattle.pdh_runner.specs.LineSteps.{CanRead, IsLinePort};
ghost use Rattle.pdh_streams.specs.E1.{e1_codec};
ghost use Rattle.pdh_streams.specs.Inspect.{inspect_e1_says, inspecting_e1, e1_inspected};
ghost use Rattle.pdh_streams.specs.Steps.{IsFramedLine};

use crate::e1::E1;
use crate::inputs::framed_line;
use pdh_answers::{Done, Stop};
use pdh_blocks::ShelfPort;
use pdh_edge::Shelf;
use pdh_inspect::{LineStop, inspect_framed};
use pdh_runner::{Input, Outcome, PortCommand, PortFiles, Worked};
use pdh_text::Text;
use pdh_watch::Monitor;
use std::alloc::{AllocError, Global};

/// `inspect e1`: it reads the framed line, shows its events to the monitors, and answers the numbers of its delivered multiframes
/// and of its events.
#[derive(Drop)]
pub struct InspectE1;

// The line of what an inspection of a framed 2048 kbit/s line found.
#[tactic(auto, using(pdh_text::proofs::Lengths::digits))]
fn says_of_e1(multiframes: u64, events: u64) -> Done
    ensures { result ≡ inspect_e1_says multiframes events }
{
    let mut text = Text::new();
    text.text("inspect e1: multiframes ");
    text.number(multiframes);
    text.text(" events ");
    text.number(events);
    text.text("\n");
    Done::Watched(text)
}

impl<M: Monitor> PortCommand<Vec<M>> for InspectE1 {
    type Plan = Input;

    ghost operation = { λ c. inspecting_e1 };

    ghost planned = { λ c line state. IsFramedLine e1_codec line state };

    ghost opened = { λ c line port. CanRead line.bits port };

    ghost gives = { λ c line begun port. IsLinePort inspecting_e1 E1Line e1_inspected line begun port };

    fn prepare<S: Shelf>(&self, _alloc: Global, shelf: &mut S) -> Result<Input, Stop> {
        framed_line(&E1, shelf)
    }

    fn files(&self, alloc: Global, line: &Input) -> Result<PortFiles, AllocError> {
        PortFiles::line(alloc, *line)
    }

    fn work<S: Shelf>(
        &self,
        alloc: Global,
        line: &Input,
        port: ShelfPort<S>,
        monitors: &mut Vec<M>,
    ) -> Worked<S> {
        let seen = inspect_framed(alloc, line.bits, port, monitors);
        let outcome = match seen.result {
            Ok(found) => {
                let done = says_of_e1(found.multiframes, found.events);
                Outcome::Whole(Ok(done))
            }
            Err(LineStop::Memory) => Outcome::Memory,
            Err(LineStop::Failed) => Outcome::Failed,
        };
        Worked {
            port: seen.feed,
            outcome,
        }
    }
}
