//! The commands over a port, each in two steps, and the one function that performs them all.

ghost use Rattle.std.specs.Prelude.{◌≡◌, List, ⊤, IfOk, IfErr, Err};
ghost use Rattle.pdh_edge.specs.Files.{ShelfState, Looks};
ghost use Rattle.pdh_watch.specs.Monitors.{State};
ghost use Rattle.pdh_blocks.specs.State.{PortState, over};
ghost use Rattle.pdh_blocks.specs.Kept.{Keeps};
ghost use Rattle.pdh_runner.specs.Operation.{Operation};
ghost use Rattle.pdh_runner.specs.Refusing.{Refuses};
ghost use Rattle.pdh_runner.specs.Running.{ArePrepared, ComesOut, IsCountedBy, IsSeen};
ghost use Rattle.pdh_runner.specs.Hearing.{LogsSlips, WorkLogsSlips};
ghost use Rattle.pdh_runner.specs.Performing.{IsCounted, OfBeginning, Performs, IsWatched};

use crate::audience::Audience;
use crate::port::{Ended, PortFiles};
use crate::running::{Worked, finished};
use pdh_answers::Stop;
use pdh_blocks::ShelfPort;
use pdh_edge::Shelf;
use std::alloc::{AllocError, Global};

/// A command over a port: it looks at the files, finds a plan or why it ends, and then works by the plan before its audience.
pub trait PortCommand<A: Audience>: Drop {
    /// What its first step finds for its second one.
    type Plan: Drop;

    /// What it does.
    ghost operation: { Self → Operation };

    /// It is one that words can ask for.
    ghost known: { Self → Type 0 } = { λ _. ⊤ };

    /// What a plan says holds of these files.
    ghost planned: { Self → Self.Plan → ShelfState → Type 0 };

    /// The port is one that the work can be done over.
    ghost opened: { Self → Self.Plan → PortState → Type 0 };

    /// Of the files as they were when the command began, the port's lists give what the work takes them for.
    ghost gives: { Self → Self.Plan → ShelfState → PortState → Type 0 };

    /// Finds the plan, or why the command ends.
    fn prepare<S: Shelf>(&self, alloc: Global, shelf: &mut S) -> Result<Self::Plan, Stop>
        requires { known self.now }
        ensures looks { Looks (S.state shelf.old) (S.state shelf.new) }
        ensures ok { IfOk result (λ plan. planned self.now plan (S.state shelf.new)) }
        ensures err { IfErr result (Refuses (operation self.now) (S.state shelf.old) (S.state shelf.new)) }
        ensures unseen { IfErr result (λ stop. (states : List State) → IsWatched (operation self.now) (S.state shelf.old) (S.state shelf.new) (Err stop) states states) }
        ensures counted { IsCounted (S.state shelf.old) (S.state shelf.new) result };

    /// The files of its port, or no memory for them.
    fn files(&self, alloc: Global, plan: &Self::Plan) -> Result<PortFiles, AllocError>
        requires { (state : ShelfState) × planned self.now plan.now state }
        ensures { IfOk result (λ files. (state : ShelfState) → planned self.now plan.now state
            → ArePrepared (operation self.now) (opened self.now plan.now) (gives self.now plan.now) state files.inputs.items files.outputs.items) };

    /// Does the work.
    fn work<S: Shelf>(
        &self,
        alloc: Global,
        plan: &Self::Plan,
        port: ShelfPort<S>,
        audience: &mut A,
    ) -> Worked<S>
        requires opened { opened self.now plan.now (over (S.state port.shelf) port.blocks) }
        requires fresh { (A.heard audience.old).told ≡ 0 }
        ensures kept { Keeps (over (S.state port.shelf) port.blocks) (over (S.state result.port.shelf) result.port.blocks) }
        ensures counted { IsCountedBy (over (S.state result.port.shelf) result.port.blocks) result.outcome }
        ensures comes { (begun : ShelfState) → gives self.now plan.now begun (over (S.state port.shelf) port.blocks)
            → ComesOut (operation self.now) begun (over (S.state port.shelf) port.blocks) (over (S.state result.port.shelf) result.port.blocks) result.outcome }
        ensures seen { (begun : ShelfState) → gives self.now plan.now begun (over (S.state port.shelf) port.blocks)
            → IsSeen (operation self.now).shows (operation self.now) begun (over (S.state result.port.shelf) result.port.blocks) result.outcome (A.seen audience.old) (A.seen audience.new) }
        ensures heard { (begun : ShelfState) → gives self.now plan.now begun (over (S.state port.shelf) port.blocks)
            → WorkLogsSlips (operation self.now) begun result.outcome (A.heard audience.old) (A.heard audience.new) };
}

// Does a command's work by its plan, over a port of its files.
fn work_over<A: Audience, C: PortCommand<A>, S: Shelf>(
    alloc: Global,
    command: &C,
    plan: &C::Plan,
    shelf: S,
    audience: &mut A,
) -> Ended<S>
    requires planned { C.planned command.now plan.now (S.state shelf) }
    requires fresh { (A.heard audience.old).told ≡ 0 }
    ensures performs { OfBeginning (S.state shelf) (λ begun. Performs (C.operation command.now) begun (S.state result.shelf) result.answer) }
    ensures watches { OfBeginning (S.state shelf) (λ begun. IsWatched (C.operation command.now) begun (S.state result.shelf) result.answer (A.seen audience.old) (A.seen audience.new)) }
    ensures hears { OfBeginning (S.state shelf) (λ begun. LogsSlips (C.operation command.now) begun result.answer (A.heard audience.old) (A.heard audience.new)) }
{
    let Ok(files) = command.files(alloc, plan) else {
        return Ended::new(shelf, Err(Stop::Memory));
    };
    match files.open(alloc, shelf) {
        Ok(port) => {
            let Worked { mut port, outcome } = command.work(alloc, plan, port, audience);
            let answer = finished(&files, &mut port, outcome);
            Ended::new(port.close(), answer)
        }
        Err(none) => Ended::new(none.shelf, Err(Stop::Memory)),
    }
}

/// Performs a command before its audience: the monitors see what it shows, and the log is told the slips that it tells.
pub fn perform<A: Audience, C: PortCommand<A>, S: Shelf>(
    alloc: Global,
    command: &C,
    mut shelf: S,
    audience: &mut A,
) -> Ended<S>
    requires known { C.known command.now }
    requires fresh { (A.heard audience.old).told ≡ 0 }
    ensures performs { Performs (C.operation command.now) (S.state shelf) (S.state result.shelf) result.answer }
    ensures watches { IsWatched (C.operation command.now) (S.state shelf) (S.state result.shelf) result.answer (A.seen audience.old) (A.seen audience.new) }
    ensures hears { LogsSlips (C.operation command.now) (S.state shelf) result.answer (A.heard audience.old) (A.heard audience.new) }
{
    match command.prepare(alloc, &mut shelf) {
        Ok(plan) => work_over(alloc, command, &plan, shelf, audience),
        Err(stop) => Ended::new(shelf, Err(stop)),
    }
}
