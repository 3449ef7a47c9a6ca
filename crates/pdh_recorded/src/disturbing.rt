//! `disturb`: a line's file changed by a script.

ghost use Rattle.std.specs.Prelude.{◌≡◌, ◌≢◌, ◌*◌, IfOk, IfErr, Ok};
ghost use Rattle.pdh_edge.specs.Files.{Looks};
ghost use Rattle.pdh_script.specs.Scripts.{FitIn};
ghost use Rattle.pdh_script.specs.declared.stop.ApplyStop.TheVariants.{Ended as LineEnded};
ghost use Rattle.pdh_recorded.specs.Disturb.{disturb_says, disturbing};
ghost use Rattle.pdh_recorded.specs.DisturbSteps.{HasSizes, ScriptIs, IsBendPlan, CanBend, IsBendPort};
ghost use Rattle.pdh_runner.specs.declared.running.Outcome.TheVariants.{Failed};
ghost use Rattle.pdh_runner.specs.Refusing.{Refuses};
ghost use Rattle.pdh_runner.specs.Performing.{IsCounted};

use pdh_answers::{Done, File, Stop, chain_counted};
use pdh_blocks::ShelfPort;
use pdh_chain::{Chain, frame_bytes};
use pdh_edge::Shelf;
use pdh_packed::Packed;
use pdh_runner::files::{read, size};
use pdh_runner::{Input, Nobody, Outcome, PortCommand, PortFiles, Worked};
use pdh_script::{ApplyStop, MOST_SCRIPT_BYTES, Script};
use pdh_shape::MOST_FRAMES;
use std::alloc::{AllocError, Global};

// The sizes of the inputs, in bytes.
#[derive(Clone, Copy)]
struct Sizes {
    line: u64,
    script: u64,
}

/// What a line is disturbed by.
#[derive(Drop)]
pub struct Plan {
    /// The script.
    pub script: Script,
    /// How many bits the line has.
    pub bits: u64,
}

/// `disturb` of the line of a chain: it reads the line and the script, writes the disturbed line, and answers how many bits it has,
/// of which the file holds the whole bytes.
#[derive(Drop)]
pub struct Disturb {
    /// The chain.
    pub chain: Chain,
}

// The sizes of the inputs, in order, if the line has no more frames than a line may have.
fn read_sizes<S: Shelf>(chain: Chain, shelf: &mut S) -> Result<Sizes, Stop>
    ensures looks { Looks (S.state shelf.old) (S.state shelf.new) }
    ensures ok { IfOk result (λ sizes. HasSizes chain sizes (S.state shelf.new)) }
    ensures err { IfErr result (Refuses (disturbing chain) (S.state shelf.old) (S.state shelf.new)) }
    ensures counted { IsCounted (S.state shelf.old) (S.state shelf.new) result }
{
    let line = size(shelf, File::Line)?;
    let script = size(shelf, File::Script)?;
    let frames = line / u64::from(frame_bytes(chain));
    if frames > MOST_FRAMES {
        return Err(Stop::ManyFrames(frames));
    }
    Ok(Sizes { line, script })
}

// The script of its file.
fn read_script<S: Shelf>(
    alloc: Global,
    chain: Chain,
    shelf: &mut S,
    sizes: Sizes,
) -> Result<Script, Stop>
    requires { HasSizes chain sizes (S.state shelf.old) }
    ensures looks { Looks (S.state shelf.old) (S.state shelf.new) }
    ensures rows { IfOk result (λ script. ScriptIs sizes.line (S.state shelf.old) (Ok script)) }
    ensures fit { IfOk result (FitIn (8 * sizes.line)) }
    ensures err { IfErr result (Refuses (disturbing chain) (S.state shelf.old) (S.state shelf.new)) }
    ensures counted { IsCounted (S.state shelf.old) (S.state shelf.new) result }
{
    if sizes.script > MOST_SCRIPT_BYTES as u64 {
        return Err(Stop::LongScript);
    }
    let text = read(alloc, shelf, File::Script, sizes.script)?;
    Ok(Script::read(alloc, &text, 8 * sizes.line)?)
}

// What it says of so many bits.
fn says(chain: Chain, bits: u64) -> Done
    ensures { result ≡ disturb_says chain bits }
{
    Done::Line(chain_counted("disturb ", chain, ": bits ", bits))
}

// How the work comes out where a line that has its bits isn't disturbed to its end: a call failed.
fn outcome_of(_stop: ApplyStop) -> Outcome
    requires { _stop ≢ LineEnded }
    ensures { result ≡ Failed }
{
    Outcome::Failed
}

impl PortCommand<Nobody> for Disturb {
    type Plan = Plan;

    ghost operation = { λ c. disturbing c.chain };

    ghost planned = { λ c plan state. IsBendPlan c.chain plan state };

    ghost opened = { λ c plan port. CanBend plan port };

    ghost gives = { λ c plan begun port. IsBendPort c.chain plan.script begun port };

    fn prepare<S: Shelf>(&self, alloc: Global, shelf: &mut S) -> Result<Plan, Stop> {
        let sizes = read_sizes(self.chain, shelf)?;
        let script = read_script(alloc, self.chain, shelf, sizes)?;
        Ok(Plan {
            script,
            bits: 8 * sizes.line,
        })
    }

    fn files(&self, alloc: Global, plan: &Plan) -> Result<PortFiles, AllocError> {
        let line = Input {
            file: File::Line,
            bits: plan.bits,
        };
        PortFiles::line_to_line(alloc, line, File::Bent)
    }

    fn work<S: Shelf>(
        &self,
        alloc: Global,
        plan: &Plan,
        mut port: ShelfPort<S>,
        _nobody: &mut Nobody,
    ) -> Worked<S> {
        let mut buffer = Packed::short(alloc);
        match plan.script.apply(plan.bits, &mut buffer, &mut port) {
            Ok(()) => {
                let bent = plan.script.bits_of(plan.bits);
                Worked {
                    port,
                    outcome: Outcome::Whole(Ok(says(self.chain, bent))),
                }
            }
            // The line has its bits.
            Err(stop) => Worked {
                port,
                outcome: outcome_of(stop),
            },
        }
    }
}
