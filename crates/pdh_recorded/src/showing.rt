//! `show`: one frame of a line's file as text.

ghost use Rattle.std.specs.Prelude.{◌≤◌};
ghost use Rattle.pdh_recorded.specs.Inspect.{showing};
ghost use Rattle.pdh_recorded.specs.ShowSteps.{HasFrame, CanShow, IsShowPort};

use pdh_answers::{Done, File, FrameText, Stop};
use pdh_blocks::ShelfPort;
use pdh_chain::{Chain, frame_bytes};
use pdh_edge::Shelf;
use pdh_runner::files::size;
use pdh_runner::{Input, Nobody, Outcome, PortCommand, PortFiles, Worked};
use pdh_shape::MOST_FRAMES;
use pdh_show::ShowStop;
use std::alloc::{AllocError, Global};

/// `show` of one frame of a chain's line: it reads the line up to the end of the frame, and answers the frame's text, whatever the
/// alignment.
#[derive(Drop)]
pub struct Show {
    /// The chain.
    pub chain: Chain,
    /// How many frames stand before it.
    pub frame: u64,
}

impl PortCommand<Nobody> for Show {
    type Plan = ();

    ghost operation = { λ c. showing c.chain c.frame };

    ghost known = { λ c. c.frame ≤ 999999999 };

    ghost planned = { λ c _ state. (c.frame ≤ 999999999) × HasFrame c.chain c.frame state };

    ghost opened = { λ c _ port. CanShow c.chain c.frame port };

    ghost gives = { λ c _ begun port. IsShowPort c.chain c.frame begun port };

    // Checks that the line has no more frames than a line may have, and this frame whole.
    fn prepare<S: Shelf>(&self, _alloc: Global, shelf: &mut S) -> Result<(), Stop> {
        let bytes = size(shelf, File::Line)?;
        let frame_bytes = u64::from(frame_bytes(self.chain));
        let frames = bytes / frame_bytes;
        if frames > MOST_FRAMES {
            return Err(Stop::ManyFrames(frames));
        }
        let need = (self.frame + 1) * frame_bytes;
        if bytes < need {
            return Err(Stop::Short(File::Line, 8 * bytes, 8 * need));
        }
        Ok(())
    }

    fn files(&self, alloc: Global, _plan: &()) -> Result<PortFiles, AllocError> {
        let bytes = (self.frame + 1) * u64::from(frame_bytes(self.chain));
        let line = Input {
            file: File::Line,
            bits: 8 * bytes,
        };
        PortFiles::line(alloc, line)
    }

    fn work<S: Shelf>(
        &self,
        alloc: Global,
        _plan: &(),
        mut port: ShelfPort<S>,
        _nobody: &mut Nobody,
    ) -> Worked<S> {
        let outcome = match pdh_show::show(alloc, self.chain, self.frame as u32, &mut port) {
            Ok(text) => Outcome::Whole(Ok(Done::Frame(FrameText::new(text)))),
            Err(ShowStop::Memory) => Outcome::Memory,
            Err(ShowStop::Failed) => Outcome::Failed,
        };
        Worked { port, outcome }
    }
}
