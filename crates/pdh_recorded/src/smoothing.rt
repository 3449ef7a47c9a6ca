//! `smooth`: the line of one multiplexer to a file for each tributary, evenly, and the schedule that would make it again.

ghost use Rattle.std.specs.Prelude.{◌≡◌, ◌∷◌, [], length, IfOk};
ghost use Rattle.pdh_chain.specs.Chains.{levels_of};
ghost use Rattle.pdh_recorded.specs.Smooth.{smooth_says, smoothing};
ghost use Rattle.pdh_recorded.specs.SmoothSteps.{AreSmoothOutputs, CanSmooth, IsSmoothLine, IsSmoothPort};

use crate::apart::{outcome_of, received};
use crate::demuxing;
use pdh_answers::{Done, File, Stop, chain_counted};
use pdh_blocks::ShelfPort;
use pdh_chain::Chain;
use pdh_edge::Shelf;
use pdh_runner::{Input, Nobody, PortCommand, PortFiles, Worked, line_of};
use pdh_smoothing::Smoothed;
use std::alloc::{AllocError, Global};

/// `smooth` of the line of a chain of one multiplexer: it reads the line, writes what comes out of each tributary's far store, and
/// the schedule that would make the line again, and answers the number of frames that were delivered, or that none was.
#[derive(Drop)]
pub struct Smooth {
    /// The chain.
    pub chain: Chain,
}

// The files of the port: the line, what comes out of each tributary's far store, and the schedule.
fn port_files(alloc: Global, chain: Chain, line: Input) -> Result<PortFiles, AllocError>
    ensures inputs { IfOk result (λ files. files.inputs.items ≡ line ∷ []) }
    ensures outputs { IfOk result (λ files. AreSmoothOutputs chain files.outputs.items) }
{
    let mut files = demuxing::port_files(alloc, chain, line)?;
    files.outputs.push(File::ScheduleOut)?;
    Ok(files)
}

// What it says of so many frames.
fn says(chain: Chain, frames: u64) -> Done
    ensures { result ≡ smooth_says chain frames }
{
    Done::Line(chain_counted("smooth ", chain, ": frames ", frames))
}

impl PortCommand<Nobody> for Smooth {
    type Plan = Input;

    ghost operation = { λ c. smoothing c.chain };

    ghost known = { λ c. length (levels_of c.chain) ≡ 1 };

    ghost planned = { λ c line state. IsSmoothLine c.chain line state };

    ghost opened = { λ c line port. CanSmooth c.chain line.bits port };

    ghost gives = { λ c line begun port. IsSmoothPort c.chain line begun port };

    fn prepare<S: Shelf>(&self, _alloc: Global, shelf: &mut S) -> Result<Input, Stop> {
        line_of(self.chain, File::Line, shelf)
    }

    fn files(&self, alloc: Global, line: &Input) -> Result<PortFiles, AllocError> {
        port_files(alloc, self.chain, *line)
    }

    fn work<S: Shelf>(
        &self,
        alloc: Global,
        line: &Input,
        port: ShelfPort<S>,
        _nobody: &mut Nobody,
    ) -> Worked<S> {
        let bits = line.bits;
        let Smoothed { port, result } = pdh_smoothing::smooth(alloc, self.chain, bits, port);
        match result {
            Ok(frames) => Worked {
                port,
                outcome: received(says(self.chain, frames), bits, frames),
            },
            // The line has its bits.
            Err(stop) => Worked {
                port,
                outcome: outcome_of(stop),
            },
        }
    }
}
