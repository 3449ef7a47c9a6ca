//! Whether the frame that a slot begins is scheduled.

ghost use Rattle.std.specs.Prelude.{◌≡◌, ◌<◌, ◌^◌, suc, IsSome, OnOk, IfErr, Some, None};
ghost use Rattle.pdh_levels.specs.Levels.{level_at};
ghost use Rattle.pdh_line.specs.Paths.{steps_of};
ghost use Rattle.pdh_tx.specs.declared.tx.TxStop.TheVariants.{NoFrame};
ghost use Rattle.pdh_tx.specs.Meaning.{plan_of};
ghost use Rattle.pdh_tx.specs.Locked.{locked_beginning};

use pdh_clock::Schedule;
use pdh_shape::Path;
use pdh_tx::TxStop;

/// Begins a frame, where a slot is the first of one: it has to be scheduled.
pub fn begin(path: Path, frame: u64, slot: u32, clock: &Schedule) -> Result<(), TxStop>
    requires node { IsSome (level_at clock.now.levels (steps_of path)) }
    requires scheduled { 0 < slot → frame < (plan_of clock.now).frames path }
    requires bounded { 0 < slot → suc frame < 2 ^ 64 }
    ensures scheduled { OnOk result (frame < (plan_of clock.now).frames path) }
    ensures bounded { OnOk result (suc frame < 2 ^ 64) }
    ensures free { OnOk result
        (locked_beginning path (plan_of clock.now) frame slot ≡ None) }
    ensures stop { IfErr result (λ stop. stop ≡ NoFrame path) }
    ensures met { IfErr result (λ stop.
        locked_beginning path (plan_of clock.now) frame slot ≡ Some stop) }
{
    if slot > 0 {
        return Ok(());
    }
    if frame >= clock.frames(&path) {
        return Err(TxStop::NoFrame { node: path });
    }
    Ok(())
}
