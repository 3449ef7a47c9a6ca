//! The following of a recording to its end.

ghost use Rattle.std.specs.Prelude.{[], Bool, List, IfOk};
ghost use Rattle.pdh_recording.specs.Given.{bits_left};
ghost use Rattle.pdh_following.specs.Following.{AreAll, IsFollowed};
ghost use Rattle.pdh_following.specs.Telling.{Begins, Ends};

use crate::fault::FollowFault;
use crate::line::{Followed, LineFound, LineWanted};
use crate::numbers::numbers_of;
use crate::progress::Progress;
use crate::reading::read_all;
use crate::rows::{begin_rows, end_rows};
use crate::teller::Teller;
use pdh_health::Health;
use pdh_placed::{Placing, Recorded};
use pdh_recording::Recording;
use std::alloc::Global;
use std::io::{Read, Write};

// What sees the events of a line, before its first bit.
fn begin<W: Write + Drop>(
    alloc: Global,
    wanted: LineWanted<'_, W>,
) -> Result<Placing<Teller<W>>, FollowFault>
    ensures { IfOk result (λ watch. Begins W.contents wanted.entry.rate wanted.entry.from wanted.entry.plans.now wanted.entry.events watch) }
{
    let LineWanted {
        order: _,
        from,
        rate,
        plans,
        events,
    } = wanted;
    let health = Health::open(alloc, rate, plans)?;
    let rows = begin_rows(events)?;
    let watch = Teller {
        alloc,
        rate,
        from,
        events: 0,
        health,
        rows,
        fault: None,
    };
    Ok(Placing { watch, place: 0 })
}

// What was found of a line, and where its rows stand.
fn end<L: Recorded, W: Write + Drop>(
    alloc: Global,
    line: &L,
    watch: Placing<Teller<W>>,
) -> Result<Followed<W>, FollowFault>
    ensures { IfOk result (λ followed. Ends W.contents (L.meaning line.now).counted (L.stands line.now) watch followed) }
{
    let Placing { watch, place: bits } = watch;
    let numbers = numbers_of(alloc, line)?;
    let events = end_rows(watch.rows)?;
    let health = watch.health.finish(alloc, bits.max(1), &numbers)?;
    Ok(Followed {
        line: LineFound { bits, health },
        events,
    })
}

/// Reads a recording to its end as a line that has no bit yet. It fails where the recording can't be read, where a row can't be
/// written, or where memory is wanting.
pub fn follow<L: Recorded, R: Read + Drop, W: Write + Drop, P: Progress>(
    alloc: Global,
    line: L,
    wanted: LineWanted<'_, W>,
    recording: &mut Recording<R>,
    progress: &mut P,
) -> Result<Followed<W>, FollowFault>
    requires { L.stands line [] }
    ensures { IfOk result (λ followed. (bits : List Bool) × AreAll (bits_left R.remaining wanted.entry.order recording.old) bits
        × IsFollowed W.contents (L.meaning line) wanted.entry.rate wanted.entry.from wanted.entry.plans.now wanted.entry.events bits followed) }
{
    let mut line = line;
    let order = wanted.order;
    let mut watch = begin(alloc, wanted)?;
    read_all(alloc, recording, order, &mut line, &mut watch, progress)?;
    end(alloc, &line, watch)
}
