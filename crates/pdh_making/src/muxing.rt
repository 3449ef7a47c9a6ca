//! `mux`: a schedule and a file for each leaf to a line's file.

ghost use Rattle.std.specs.Prelude.{if◌then◌else◌, ◌≡◌, ◌≢◌, ◌⊎◌, Bool, ℕ, [], ◌∷◌, ◌<◌, IfOk, OnOk, IfErr, IfSome, All};
ghost use Rattle.pdh_edge.specs.Files.{Looks};
ghost use Rattle.pdh_shape.specs.declared.place.Path.{Path};
ghost use Rattle.pdh_shape.specs.declared.place.Place.{Place};
ghost use Rattle.pdh_clock.specs.Contents.{IsRowOf};
ghost use Rattle.pdh_chain.specs.Chains.{levels_of};
ghost use Rattle.pdh_chain.specs.declared.stop.MuxStop.TheVariants.{Memory, Event, NoFrame, Ended as LeafEnded, ReadFailed, WriteFailed};
ghost use Rattle.pdh_runner.specs.declared.running.Outcome.TheVariants.{Whole, Memory as WantsMemory, Failed};
ghost use Rattle.pdh_runner.specs.Performing.{IsCounted};
ghost use Rattle.pdh_runner.specs.Refusing.{Refuses};
ghost use Rattle.pdh_answers.specs.declared.answer.Stop.TheVariants.{Overflow, Underflow};
ghost use Rattle.pdh_answers.specs.declared.file.File.TheVariants.{Line};
ghost use Rattle.pdh_making.specs.MuxSteps.{AreSizes, AllHeld, AreEnough, IsEnoughStop, IsScheduled, IsPlanned, AreLeafInputs, CanMake, IsMuxPort};
ghost use Rattle.pdh_making.specs.Mux.{Job, mux_says, muxing, making_line};
ghost use Rattle.pdh_making.specs.Mux.Job.{Plainly};

use crate::schedule::read_schedule;
use pdh_answers::{Done, File, Stop, chain_counted, leaf_count};
use pdh_blocks::ShelfPort;
use pdh_chain::{Chain, MuxStop};
use pdh_clock::Schedule;
use pdh_edge::Shelf;
use pdh_runner::files::size;
use pdh_runner::{Input, Nobody, Outcome, PortCommand, PortFiles, Worked};
use pdh_shape::{MOST_FRAMES, Place, TOP};
use std::alloc::{AllocError, Global};

// The sizes of the inputs, in bytes. Where a chain has fewer leaves than 64, the rest is 0.
#[derive(Clone, Copy)]
struct InputSizes {
    schedule: u64,
    leaves: [u64; 64],
}

/// What a line is made by.
#[derive(Drop)]
pub struct Plan {
    /// The schedule.
    pub clock: Schedule,
    /// How many frames it has.
    pub frames: u64,
}

/// `mux` of the line of a chain: it reads the schedule and the leaves, makes the line, writes its whole frames up to the first event,
/// and answers the number of frames. The line sends a code over the far end alarm and control channel of its top, where one is
/// asked for.
#[derive(Drop)]
pub struct Mux {
    /// The chain.
    pub chain: Chain,
    /// The code.
    pub feac: Option<u8>,
}

// The sizes of the inputs, in order.
fn read_sizes<S: Shelf>(chain: Chain, shelf: &mut S) -> Result<InputSizes, Stop>
    ensures looks { Looks (S.state shelf.old) (S.state shelf.new) }
    ensures ok { IfOk result (λ sizes. AreSizes chain sizes (S.state shelf.new)) }
    ensures held { OnOk result (AllHeld chain (S.state shelf.new)) }
    ensures err { IfErr result (λ stop. (job : Job) → Refuses (making_line chain job) (S.state shelf.old) (S.state shelf.new) stop) }
    ensures counted { IsCounted (S.state shelf.old) (S.state shelf.new) result }
{
    let schedule = size(shelf, File::Schedule)?;
    let mut leaves = [0u64; 64];
    for leaf in 0..leaf_count(chain) {
        leaves[leaf as usize] = size(shelf, File::Leaf(leaf))?;
    }
    Ok(InputSizes { schedule, leaves })
}

// The frames of the line, if they are few enough, each node has the frames that it begins, and each
// leaf has the bits that enter by their end.
fn frames(chain: Chain, clock: &Schedule, sizes: &InputSizes) -> Result<u64, Stop>
    requires levels { clock.now.levels ≡ levels_of chain }
    requires rows { All (IsRowOf (levels_of chain)) clock.now.rows }
    ensures ok { IfOk result (AreEnough chain clock.now.rows sizes.now) }
    ensures err { IfErr result (IsEnoughStop chain clock.now.rows sizes.now) }
{
    let frames = clock.frames(&TOP);
    if frames > MOST_FRAMES {
        return Err(Stop::ManyFrames(frames));
    }
    if let Some(short) = clock.short(frames) {
        return Err(Stop::ShortNode(short.node, short.have, short.need));
    }
    for leaf in 0..leaf_count(chain) {
        let need = clock.entered(u32::from(leaf), frames) as u64;
        let have = sizes.leaves[leaf as usize];
        if have < (need + 7) / 8 {
            return Err(Stop::Short(File::Leaf(leaf), 8 * have, need));
        }
    }
    Ok(frames)
}

/// What the line is made by, where no step refuses the inputs.
pub fn read_plan<S: Shelf>(alloc: Global, chain: Chain, shelf: &mut S) -> Result<Plan, Stop>
    ensures looks { Looks (S.state shelf.old) (S.state shelf.new) }
    ensures ok { IfOk result (λ plan. IsPlanned chain plan (S.state shelf.new)) }
    ensures err { IfErr result (λ stop. (job : Job) → Refuses (making_line chain job) (S.state shelf.old) (S.state shelf.new) stop) }
    ensures counted { IsCounted (S.state shelf.old) (S.state shelf.new) result }
{
    let sizes = read_sizes(chain, shelf)?;
    let clock = read_schedule(alloc, chain, shelf, sizes.schedule)?;
    let frames = frames(chain, &clock, &sizes)?;
    Ok(Plan { clock, frames })
}

/// The files of the port: of each leaf the bits that enter, and the line.
pub fn port_files(alloc: Global, chain: Chain, plan: &Plan) -> Result<PortFiles, AllocError>
    requires { IsScheduled chain plan.now }
    ensures inputs { IfOk result (λ files. AreLeafInputs chain plan.now.clock.rows files.inputs.items) }
    ensures outputs { IfOk result (λ files. files.outputs.items ≡ Line ∷ []) }
{
    let mut inputs = Vec::with_capacity(alloc, usize::from(leaf_count(chain)))?;
    for leaf in 0..leaf_count(chain) {
        inputs.push(Input {
            file: File::Leaf(leaf),
            bits: plan.clock.entered(u32::from(leaf), plan.frames) as u64,
        })?;
    }
    let mut outputs = Vec::with_capacity(alloc, 1)?;
    outputs.push(File::Line)?;
    Ok(PortFiles { inputs, outputs })
}

// How an event ends the command.
fn stop_of(over: bool, place: Place) -> Stop
    ensures { result ≡ (if over then Overflow place else Underflow place) }
{
    if over {
        Stop::Overflow(place)
    } else {
        Stop::Underflow(place)
    }
}

// What it says of so many frames.
fn says(chain: Chain, frames: u64) -> Done
    ensures { result ≡ mux_says chain frames }
{
    Done::Line(chain_counted("mux ", chain, ": frames ", frames))
}

// How the work comes out where a line isn't made to its end, by a schedule and of leaves that are long enough.
fn outcome_of(stop: MuxStop) -> Outcome
    requires frames { (node : Path) → stop ≢ NoFrame node }
    requires leaves { (leaf : ℕ) → stop ≢ LeafEnded leaf }
    ensures event { (over : Bool) (place : Place) → stop ≡ Event over place
        → result ≡ Whole (Err (if over then Overflow place else Underflow place)) }
    ensures memory { stop ≡ Memory → result ≡ WantsMemory }
    ensures failed { (stop ≡ ReadFailed) ⊎ (stop ≡ WriteFailed) → result ≡ Failed }
{
    match stop {
        MuxStop::Event { over, place } => Outcome::Whole(Err(stop_of(over, place))),
        MuxStop::Memory => Outcome::Memory,
        _ => Outcome::Failed,
    }
}

impl PortCommand<Nobody> for Mux {
    type Plan = Plan;

    ghost operation = { λ c. muxing c.chain c.feac };

    ghost known = { λ c. IfSome c.feac (λ code. code < 64) };

    ghost planned = { λ c plan state. IsPlanned c.chain plan state × IfSome c.feac (λ code. code < 64) };

    ghost opened = { λ c plan port. CanMake c.chain c.feac plan port };

    ghost gives = { λ c plan begun port. IsMuxPort c.chain (Plainly c.feac) plan.clock.rows begun port };

    fn prepare<S: Shelf>(&self, alloc: Global, shelf: &mut S) -> Result<Plan, Stop> {
        read_plan(alloc, self.chain, shelf)
    }

    fn files(&self, alloc: Global, plan: &Plan) -> Result<PortFiles, AllocError> {
        port_files(alloc, self.chain, plan)
    }

    // Makes the line into the port, whole frames up to the first event.
    fn work<S: Shelf>(
        &self,
        alloc: Global,
        plan: &Plan,
        mut port: ShelfPort<S>,
        _nobody: &mut Nobody,
    ) -> Worked<S> {
        let frames = plan.frames;
        match pdh_mux::mux(alloc, self.chain, &plan.clock, frames, self.feac, &mut port) {
            Ok(()) => Worked {
                port,
                outcome: Outcome::Whole(Ok(says(self.chain, frames))),
            },
            // The schedule and the leaves are long enough.
            Err(stop) => Worked {
                port,
                outcome: outcome_of(stop),
            },
        }
    }
}
