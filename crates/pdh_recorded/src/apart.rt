//! How taking a line apart ends a command.

ghost use Rattle.std.specs.Prelude.{◌≡◌, ◌≢◌, ◌⊎◌, Ok, Err};
ghost use Rattle.pdh_answers.specs.declared.answer.Stop.TheVariants.{NoAlignment};
ghost use Rattle.pdh_chain.specs.declared.stop.DemuxStop.TheVariants.{Memory, Ended as LineEnded, ReadFailed, WriteFailed};
ghost use Rattle.pdh_runner.specs.declared.running.Outcome.TheVariants.{Whole, Memory as WantsMemory, Failed};

use pdh_answers::{Done, Stop};
use pdh_chain::DemuxStop;
use pdh_runner::Outcome;

/// How the work comes out where so many frames of a line of so many bits are delivered, of which this is said.
pub fn received(said: Done, bits: u64, frames: u64) -> Outcome
    ensures none { frames ≡ 0 → result ≡ Whole (Err (NoAlignment bits)) }
    ensures some { frames ≢ 0 → result ≡ Whole (Ok said) }
{
    if frames == 0 {
        return Outcome::Whole(Err(Stop::NoAlignment(bits)));
    }
    Outcome::Whole(Ok(said))
}

/// How the work comes out where a line that has its bits isn't received to its end.
pub fn outcome_of(stop: DemuxStop) -> Outcome
    requires { stop ≢ LineEnded }
    ensures memory { stop ≡ Memory → result ≡ WantsMemory }
    ensures failed { (stop ≡ ReadFailed) ⊎ (stop ≡ WriteFailed) → result ≡ Failed }
{
    match stop {
        DemuxStop::Memory => Outcome::Memory,
        _ => Outcome::Failed,
    }
}
