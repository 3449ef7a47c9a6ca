//! `demux`: a line's file to a file for each leaf.

ghost use Rattle.std.specs.Prelude.{◌≡◌, ◌∷◌, [], IfOk};
ghost use Rattle.pdh_answers.specs.Names.{line_file};
ghost use Rattle.pdh_recorded.specs.Demux.{demux_says, demuxing};
ghost use Rattle.pdh_recorded.specs.DemuxSteps.{AreLeafOutputs, CanReceive, IsDemuxPort};
ghost use Rattle.pdh_runner.specs.Lines.{IsLine};

use crate::apart::{outcome_of, received};
use pdh_answers::{Bits, Done, File, Stop, chain_counted, leaf_count};
use pdh_blocks::ShelfPort;
use pdh_chain::Chain;
use pdh_edge::Shelf;
use pdh_runner::{Input, Nobody, PortCommand, PortFiles, Worked, line_of};
use pdh_watch::Quiet;
use std::alloc::{AllocError, Global};

/// `demux` of the line of a chain: it reads the line, writes each leaf's bits, and answers the number of frames that were
/// delivered, or that none was.
#[derive(Drop)]
pub struct Demux {
    /// The chain.
    pub chain: Chain,
    /// Where the line stands.
    pub bits: Bits,
}

/// The files of the port: the line, and what each leaf receives.
pub fn port_files(alloc: Global, chain: Chain, line: Input) -> Result<PortFiles, AllocError>
    ensures inputs { IfOk result (λ files. files.inputs.items ≡ line ∷ []) }
    ensures outputs { IfOk result (λ files. AreLeafOutputs chain files.outputs.items) }
{
    let mut inputs = Vec::with_capacity(alloc, 1)?;
    inputs.push(line)?;
    let mut outputs = Vec::with_capacity(alloc, usize::from(leaf_count(chain)))?;
    for leaf in 0..leaf_count(chain) {
        outputs.push(File::Output(leaf))?;
    }
    Ok(PortFiles { inputs, outputs })
}

// What it says of so many frames.
fn says(chain: Chain, frames: u64) -> Done
    ensures { result ≡ demux_says chain frames }
{
    Done::Line(chain_counted("demux ", chain, ": frames ", frames))
}

impl PortCommand<Nobody> for Demux {
    type Plan = Input;

    ghost operation = { λ c. demuxing c.chain c.bits };

    ghost planned = { λ c line state. (line.file ≡ line_file c.bits) × IsLine c.chain line state };

    ghost opened = { λ c line port. CanReceive c.chain line.bits port };

    ghost gives = { λ c line begun port. IsDemuxPort c.chain c.bits line begun port };

    fn prepare<S: Shelf>(&self, _alloc: Global, shelf: &mut S) -> Result<Input, Stop> {
        line_of(self.chain, File::of_line(self.bits), shelf)
    }

    fn files(&self, alloc: Global, line: &Input) -> Result<PortFiles, AllocError> {
        port_files(alloc, self.chain, *line)
    }

    fn work<S: Shelf>(
        &self,
        alloc: Global,
        line: &Input,
        mut port: ShelfPort<S>,
        _nobody: &mut Nobody,
    ) -> Worked<S> {
        let bits = line.bits;
        match pdh_demux::demux(alloc, self.chain, bits, &mut port, &mut Quiet) {
            Ok(frames) => Worked {
                port,
                outcome: received(says(self.chain, frames), bits, frames),
            },
            // The line has its bits.
            Err(stop) => Worked {
                port,
                outcome: outcome_of(stop),
            },
        }
    }
}
