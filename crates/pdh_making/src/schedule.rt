//! The file of a schedule, read.

ghost use Rattle.std.specs.Prelude.{◌≡◌, Ok, All, IfOk, IfErr};
ghost use Rattle.pdh_edge.specs.Files.{Looks};
ghost use Rattle.pdh_clock.specs.Contents.{IsRowOf};
ghost use Rattle.pdh_answers.specs.Names.{schedule_name};
ghost use Rattle.pdh_runner.specs.Reading.{HasLength};
ghost use Rattle.pdh_runner.specs.Performing.{IsCounted};
ghost use Rattle.pdh_chain.specs.Chains.{levels_of};
ghost use Rattle.pdh_making.specs.ScheduleSteps.{RowsAre, IsScheduleStop};

use pdh_answers::{File, Stop};
use pdh_chain::Chain;
use pdh_clock::Schedule;
use pdh_edge::Shelf;
use pdh_runner::files::read;
use pdh_shape::MOST_BYTES;
use std::alloc::Global;

/// The schedule of its file, which has so many bytes.
pub fn read_schedule<S: Shelf>(
    alloc: Global,
    chain: Chain,
    shelf: &mut S,
    bytes: u64,
) -> Result<Schedule, Stop>
    requires { HasLength schedule_name bytes (S.state shelf.old) }
    ensures looks { Looks (S.state shelf.old) (S.state shelf.new) }
    ensures rows { IfOk result (λ clock. RowsAre chain (S.state shelf.old) (Ok clock.rows)) }
    ensures levels { IfOk result (λ clock. clock.levels ≡ levels_of chain) }
    ensures sound { IfOk result (λ clock. All (IsRowOf (levels_of chain)) clock.rows) }
    ensures err { IfErr result (IsScheduleStop chain (S.state shelf.old) (S.state shelf.new)) }
    ensures counted { IsCounted (S.state shelf.old) (S.state shelf.new) result }
{
    if bytes > MOST_BYTES as u64 {
        return Err(Stop::LongSchedule);
    }
    let text = read(alloc, shelf, File::Schedule, bytes)?;
    Ok(Schedule::read(alloc, chain.levels(), &text)?)
}
