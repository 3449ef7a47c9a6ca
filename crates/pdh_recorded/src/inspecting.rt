//! `inspect`: the events of a line's file, shown to the monitors.

ghost use Rattle.std.specs.Prelude.{◌≡◌};
ghost use Rattle.pdh_answers.specs.Names.{line_file};
ghost use Rattle.pdh_recorded.specs.Inspect.{inspect_says, inspecting, inspected};
ghost use Rattle.pdh_runner.specs.Lines.{IsLine};
ghost use Rattle.pdh_runner.specs.LineSteps.{CanRead, IsLinePort};

use pdh_answers::{Bits, Done, File, Stop};
use pdh_blocks::ShelfPort;
use pdh_chain::Chain;
use pdh_edge::Shelf;
use pdh_inspect::{LineStop, inspect_line};
use pdh_runner::{Input, Outcome, PortCommand, PortFiles, Worked, line_of};
use pdh_text::Text;
use pdh_watch::Monitor;
use std::alloc::{AllocError, Global};

/// `inspect` of the line of a chain: it reads the line, shows its events to the monitors, and answers the numbers of its delivered
/// frames and of its events.
#[derive(Drop)]
pub struct Inspect {
    /// The chain.
    pub chain: Chain,
    /// Where the line stands.
    pub bits: Bits,
}

// The line of what an inspection of a chain's line found.
#[tactic(auto, using(pdh_text::proofs::Lengths::digits))]
fn says(chain: Chain, frames: u64, events: u64) -> Done
    ensures { result ≡ inspect_says chain frames events }
{
    let mut text = Text::new();
    text.text("inspect ");
    text.text(chain.name());
    text.text(": frames ");
    text.number(frames);
    text.text(" events ");
    text.number(events);
    text.text("\n");
    Done::Watched(text)
}

impl<M: Monitor> PortCommand<Vec<M>> for Inspect {
    type Plan = Input;

    ghost operation = { λ c. inspecting c.chain c.bits };

    ghost planned = { λ c line state. (line.file ≡ line_file c.bits) × IsLine c.chain line state };

    ghost opened = { λ c line port. CanRead line.bits port };

    ghost gives = { λ c line begun port. IsLinePort (inspecting c.chain c.bits) (line_file c.bits) (inspected c.chain) line begun port };

    fn prepare<S: Shelf>(&self, _alloc: Global, shelf: &mut S) -> Result<Input, Stop> {
        line_of(self.chain, File::of_line(self.bits), shelf)
    }

    fn files(&self, alloc: Global, line: &Input) -> Result<PortFiles, AllocError> {
        PortFiles::line(alloc, *line)
    }

    fn work<S: Shelf>(
        &self,
        alloc: Global,
        line: &Input,
        port: ShelfPort<S>,
        monitors: &mut Vec<M>,
    ) -> Worked<S> {
        let seen = inspect_line(alloc, self.chain, line.bits, port, monitors);
        let outcome = match seen.result {
            Ok(found) => {
                let done = says(self.chain, found.frames, found.events);
                Outcome::Whole(Ok(done))
            }
            Err(LineStop::Memory) => Outcome::Memory,
            Err(LineStop::Failed) => Outcome::Failed,
        };
        Worked {
            port: seen.feed,
            outcome,
        }
    }
}
