//! How the work of a command over a port comes out, and how the command ends.

ghost use Rattle.std.specs.Prelude.{List};
ghost use Rattle.pdh_edge.specs.Files.{ShelfState};
ghost use Rattle.pdh_watch.specs.Monitors.{State};
ghost use Rattle.pdh_blocks.specs.State.{PortState, over};
ghost use Rattle.pdh_blocks.specs.Kept.{Keeps};
ghost use Rattle.pdh_runner.specs.Operation.{Operation};
ghost use Rattle.pdh_runner.specs.PortFiles.{HasFiles};
ghost use Rattle.pdh_runner.specs.Running.{IsGiven, ComesOut, IsCountedBy, IsSeen};
ghost use Rattle.pdh_runner.specs.Hearing.{Ends};
ghost use Rattle.pdh_runner.specs.Performing.{Performs, IsWatched};

use crate::port::PortFiles;
use pdh_answers::{Done, Stop};
use pdh_blocks::ShelfPort;
use pdh_edge::Shelf;

/// How the work of a command over its port came out.
#[derive(Drop)]
pub enum Outcome {
    /// It was done: the answer, once what waits of the outputs is appended.
    Whole(Result<Done, Stop>),
    /// Memory was wanting, before anything was started.
    Memory,
    /// A call of the port failed.
    Failed,
    /// The log of slips couldn't be told of one.
    Unheard,
}

/// A port over which a command's work was done, and how it came out.
#[derive(Drop)]
pub struct Worked<S: Shelf> {
    /// The port.
    pub port: ShelfPort<S>,
    /// How the work came out.
    pub outcome: Outcome,
}

// Appends what waits where the work was done, and answers how the command ends.
pub(crate) fn finished<S: Shelf>(
    files: &PortFiles,
    port: &mut ShelfPort<S>,
    outcome: Outcome,
) -> Result<Done, Stop>
    requires files { HasFiles files.now.inputs.items files.now.outputs.items (over (S.state port.old.shelf) port.old.blocks) }
    requires counted { IsCountedBy (over (S.state port.old.shelf) port.old.blocks) outcome }
    ensures performs { (operation : Operation) (begun : ShelfState) (old : PortState) → IsGiven operation begun files.now.inputs.items old
        → Keeps old (over (S.state port.old.shelf) port.old.blocks) → ComesOut operation begun old (over (S.state port.old.shelf) port.old.blocks) outcome
        → Performs operation begun (S.state port.new.shelf) result }
    ensures watches { (operation : Operation) (begun : ShelfState) (old : PortState) (before after : List State) → IsGiven operation begun files.now.inputs.items old
        → Keeps old (over (S.state port.old.shelf) port.old.blocks) → ComesOut operation begun old (over (S.state port.old.shelf) port.old.blocks) outcome
        → IsSeen operation.shows operation begun (over (S.state port.old.shelf) port.old.blocks) outcome before after
        → IsWatched operation begun (S.state port.new.shelf) result before after }
    ensures ends { Ends outcome result }
{
    match outcome {
        Outcome::Whole(answer) => {
            files.finish(port)?;
            answer
        }
        Outcome::Memory => Err(Stop::Memory),
        Outcome::Failed => Err(files.stop(port)),
        Outcome::Unheard => Err(Stop::Unheard),
    }
}
