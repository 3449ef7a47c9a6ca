//! What sees the events of a line: the health of its nodes, and the rows of CSV.

ghost use Rattle.std.specs.Prelude.{◌≡◌, ◌<◌, ◌^◌, OnOk, None};
ghost use Rattle.std.specs.Io.KnownBytes.{Appends};
ghost use Rattle.csv.specs.Writing.{default_writer, row_text, text_written};
ghost use Rattle.pdh_event_rows.specs.Rows.{IsReady};
ghost use Rattle.pdh_following.specs.Rows.{event_fields, StandReady};

use crate::fault::FollowFault;
use crate::names::{kind_name, node_name};
use csv::Writer;
use pdh_event_rows::{EventRow, RowError, write_row};
use pdh_health::Health;
use pdh_placed::{Placed, PlacedWatch};
use pdh_watch::Kind;
use std::alloc::Global;
use std::io::Write;

/// Shows each event to the health of the nodes, and writes its row, if rows are wanted. After a row that couldn't be written none is.
#[derive(Drop)]
pub(crate) struct Teller<W: Write + Drop> {
    pub(crate) alloc: Global,
    /// The rate of the top in bits a second.
    pub(crate) rate: u64,
    /// The bit of the file that is the line's first one.
    pub(crate) from: u64,
    /// How many events came; the count stands at `u64::MAX`.
    pub(crate) events: u64,
    /// The health of the nodes.
    pub(crate) health: Health,
    /// The rows.
    pub(crate) rows: Option<Writer<W>>,
    /// Why no more rows are written.
    pub(crate) fault: Option<FollowFault>,
    ghost some: { 0 < rate },
    ghost few: { rate < 2 ^ 30 },
    ghost ready: { fault ≡ None → StandReady rows },
}

// Writes the row of an event of a line whose first bit is this one of the file.
fn write_event<W: Write + Drop>(
    alloc: Global,
    rows: &mut Writer<W>,
    rate: u64,
    from: u64,
    placed: &Placed,
) -> Result<(), RowError>
    requires ready { IsReady rows.old }
    requires some { 0 < rate }
    requires few { rate < 2 ^ 30 }
    ensures written { OnOk result (Appends (text_written W.contents rows.old) (text_written W.contents rows.new)
        (row_text default_writer (event_fields rate from placed.now))) }
    ensures ready { OnOk result (IsReady rows.new) }
{
    let event = placed.event;
    let node = node_name(alloc, event.path)?;
    let row = EventRow {
        node: node.as_str(),
        kind: kind_name(event.kind),
        node_bit: event.bit,
        place: from.saturating_add(placed.place),
        value: (event.kind == Kind::FEAC).then_some(event.value),
    };
    write_row(alloc, rows, &row, rate)
}

impl<W: Write + Drop> Teller<W> {
    ghost use Rattle.pdh_following.specs.Rows.{RowsSeen};
    ghost use Rattle.std.specs.Prelude.{[], ◌∷◌};

    // Writes the row of an event, if rows are wanted and could be written so far.
    fn write(&mut self, placed: &Placed)
        ensures rows { RowsSeen W.contents self.old.rate self.old.from self.old.rows self.new.rows self.old.fault self.new.fault (placed.now ∷ []) }
        ensures rate { self.new.rate ≡ self.old.rate }
        ensures from { self.new.from ≡ self.old.from }
        ensures health { self.new.health ≡ self.old.health }
    {
        if self.fault.is_some() {
            return;
        }
        let Some(rows) = &mut self.rows else {
            return;
        };
        if let Err(fault) = write_event(self.alloc, rows, self.rate, self.from, placed) {
            self.fault = Some(fault.into());
        }
    }
}

impl<W: Write + Drop> PlacedWatch for Teller<W> {
    ghost use Rattle.pdh_following.specs.Telling.{Told};
    ghost use Rattle.pdh_following.specs.laws.Telling.{told_none, told_both};

    ghost saw = { λ a events b. Told W.contents a b events };

    ghost saw_nothing = { told_none W.contents };

    ghost saw_join = { told_both W.contents };

    fn note(&mut self, placed: &Placed) {
        self.health.note(placed);
        self.events = self.events.saturating_add(1);
        self.write(placed);
    }
}
