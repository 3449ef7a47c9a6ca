//! Rows of events.

ghost use Rattle.std.specs.Prelude.{OnOk, codes};
ghost use Rattle.std.specs.Io.KnownBytes.{Appends};
ghost use Rattle.csv.specs.Writing.{text_written};
ghost use Rattle.pdh_event_rows.specs.Rows.{IsReady};

use csv::Writer;
use pdh_event_rows::{EventRow, RowError, write_header, write_row};
use std::alloc::Global;
use std::io::Write;

/// The names of the columns stand in this order.
#[tactic(auto, unfolding(csv::specs::Writing::fields_text, csv::specs::Writing::is_blank))]
pub fn columns_exchanged<W: Write + Drop>(writer: &mut Writer<W>) -> Result<(), RowError>
    requires { IsReady writer.old }
    ensures { OnOk result (Appends (text_written W.contents writer.old) (text_written W.contents writer.new)
        (codes "node,kind,node_bit,bit,seconds,value\n")) }
{
    write_header(writer)
}

/// The time of an event is told in seconds.
pub fn milliseconds_for_seconds<W: Write + Drop>(
    alloc: Global,
    writer: &mut Writer<W>,
) -> Result<(), RowError>
    requires { IsReady writer.old }
    ensures { OnOk result (Appends (text_written W.contents writer.old) (text_written W.contents writer.new)
        (codes "/,lost,3,3,1.500000000,\n")) }
{
    let row = EventRow {
        node: "/",
        kind: "lost",
        node_bit: 3,
        place: 3,
        value: None,
    };
    write_row(alloc, writer, &row, 2)
}

/// The bit of the node and the bit of the recording are told apart.
pub fn node_bit_for_the_place<W: Write + Drop>(
    alloc: Global,
    writer: &mut Writer<W>,
) -> Result<(), RowError>
    requires { IsReady writer.old }
    ensures { OnOk result (Appends (text_written W.contents writer.old) (text_written W.contents writer.new)
        (codes "/2,lost,1,4,2.000000000,\n")) }
{
    let row = EventRow {
        node: "/2",
        kind: "lost",
        node_bit: 1,
        place: 4,
        value: None,
    };
    write_row(alloc, writer, &row, 2)
}

/// The row of an event without a value ends with its comma.
pub fn value_of_no_code<W: Write + Drop>(
    alloc: Global,
    writer: &mut Writer<W>,
) -> Result<(), RowError>
    requires { IsReady writer.old }
    ensures { OnOk result (Appends (text_written W.contents writer.old) (text_written W.contents writer.new)
        (codes "/,lost,0,0,0.000000000,\n")) }
{
    let row = EventRow {
        node: "/",
        kind: "lost",
        node_bit: 0,
        place: 0,
        value: None,
    };
    write_row(alloc, writer, &row, 2)
}
