//! `muxslip`: a schedule and a file for each leaf to the file of a line whose stores slip and go on.

ghost use Rattle.std.specs.Prelude.{◌≡◌, ◌≢◌, ◌⊎◌, ℕ, None};
ghost use Rattle.pdh_shape.specs.declared.place.Path.{Path};
ghost use Rattle.pdh_chain.specs.declared.stop.MuxStop.TheVariants.{Memory, NoFrame, Ended as LeafEnded, ReadFailed, WriteFailed, LogFailed};
ghost use Rattle.pdh_runner.specs.declared.running.Outcome.TheVariants.{Memory as WantsMemory, Failed, Unheard};
ghost use Rattle.pdh_making.specs.MuxSteps.{IsPlanned, CanMake, IsMuxPort};
ghost use Rattle.pdh_making.specs.Mux.{muxslip_says, muxing_slips};
ghost use Rattle.pdh_making.specs.Mux.Job.{WithSlips};

use crate::muxing::{Plan, port_files, read_plan};
use pdh_answers::{Done, SinkLog, Stop};
use pdh_blocks::ShelfPort;
use pdh_chain::{Chain, MuxStop};
use pdh_edge::{Shelf, Sink};
use pdh_runner::{Outcome, PortCommand, PortFiles, Worked};
use pdh_text::Text;
use std::alloc::{AllocError, Global};

/// `muxslip` of the line of a chain: it reads the schedule and the leaves, makes the line whose stores slip and go on, writes its
/// frames, tells the log each slip when it comes, and answers the numbers of frames and of slips. Where the log couldn't be told of
/// a slip, the line ends.
#[derive(Drop)]
pub struct MuxSlip {
    /// The chain.
    pub chain: Chain,
}

// What it says of so many frames and slips.
#[tactic(auto, using(pdh_text::proofs::Lengths::digits))]
fn says(chain: Chain, frames: u64, slips: u64) -> Done
    ensures { result ≡ muxslip_says chain frames slips }
{
    let mut text = Text::new();
    text.text("muxslip ");
    text.text(chain.name());
    text.text(": frames ");
    text.number(frames);
    text.text(" slips ");
    text.number(slips);
    text.text("\n");
    Done::Line(text)
}

// How the work comes out where a line isn't made to its end, by a schedule and of leaves that are long enough.
fn outcome_of(stop: MuxStop) -> Outcome
    requires frames { (node : Path) → stop ≢ NoFrame node }
    requires leaves { (leaf : ℕ) → stop ≢ LeafEnded leaf }
    ensures memory { stop ≡ Memory → result ≡ WantsMemory }
    ensures log { stop ≡ LogFailed → result ≡ Unheard }
    ensures failed { (stop ≡ ReadFailed) ⊎ (stop ≡ WriteFailed) → result ≡ Failed }
{
    match stop {
        MuxStop::Memory => Outcome::Memory,
        MuxStop::LogFailed => Outcome::Unheard,
        _ => Outcome::Failed,
    }
}

impl<K: Sink> PortCommand<SinkLog<K>> for MuxSlip {
    type Plan = Plan;

    ghost operation = { λ c. muxing_slips c.chain };

    ghost planned = { λ c plan state. IsPlanned c.chain plan state };

    ghost opened = { λ c plan port. CanMake c.chain None plan port };

    ghost gives = { λ c plan begun port. IsMuxPort c.chain WithSlips plan.clock.rows begun port };

    fn prepare<S: Shelf>(&self, alloc: Global, shelf: &mut S) -> Result<Plan, Stop> {
        read_plan(alloc, self.chain, shelf)
    }

    fn files(&self, alloc: Global, plan: &Plan) -> Result<PortFiles, AllocError> {
        port_files(alloc, self.chain, plan)
    }

    // Makes the line into the port, and tells the log its slips.
    fn work<S: Shelf>(
        &self,
        alloc: Global,
        plan: &Plan,
        mut port: ShelfPort<S>,
        log: &mut SinkLog<K>,
    ) -> Worked<S> {
        let frames = plan.frames;
        match pdh_mux::mux_slips(alloc, self.chain, &plan.clock, frames, &mut port, log) {
            Ok(()) => Worked {
                port,
                outcome: Outcome::Whole(Ok(says(self.chain, frames, log.told))),
            },
            // The schedule and the leaves are long enough.
            Err(stop) => Worked {
                port,
                outcome: outcome_of(stop),
            },
        }
    }
}
