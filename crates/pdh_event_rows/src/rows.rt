//! The writing of rows.

ghost use Rattle.std.specs.Prelude.{◌≡◌, ◌<◌, ◌^◌, IfOk, OnOk, [], string_bytes, map};
ghost use Rattle.std.specs.Io.KnownBytes.{Appends, Keeps};
ghost use Rattle.csv.specs.Writing.{default_writer, row_text, text_written, writer_pending, writer_under};
ghost use Rattle.pdh_event_rows.specs.Rows.{IsReady, columns, fields_of, value_text};

use crate::EventRow;
use crate::seconds::seconds;
use csv::{ErrorKind, Writer};
use std::alloc::{AllocError, Global};
use std::io::Write;
use thiserror::Error;

/// Why a row wasn't written.
#[derive(Debug, Drop, Error, PartialEq)]
pub enum RowError {
    /// Memory was wanting.
    #[error("out of memory")]
    OutOfMemory,
    /// The writer below refused it.
    #[error("not written")]
    Unwritten,
}

impl From<AllocError> for RowError {
    fn from(_error: AllocError) -> RowError {
        RowError::OutOfMemory
    }
}

impl From<csv::Error> for RowError {
    fn from(error: csv::Error) -> RowError {
        match error.kind() {
            ErrorKind::OutOfMemory => RowError::OutOfMemory,
            _ => RowError::Unwritten,
        }
    }
}

// The text of an event's value: nothing where it has none.
fn value_of(alloc: Global, value: Option<u8>) -> Result<String, AllocError>
    ensures { IfOk result (λ text. string_bytes text ≡ value_text value) }
{
    match value {
        Some(code) => format!(in alloc; "{code}"),
        None => Ok(String::new(alloc)),
    }
}

// Writes the fields of a row.
fn write_fields<W: Write + Drop>(writer: &mut Writer<W>, fields: &[&[u8]]) -> Result<(), RowError>
    requires { IsReady writer.old }
    ensures written { OnOk result (Appends (text_written W.contents writer.old) (text_written W.contents writer.new)
        (row_text default_writer (map (λ f. f.now) fields.now))) }
    ensures ready { OnOk result (IsReady writer.new) }
{
    writer.write_fields(fields)?;
    Ok(())
}

/// A writer of rows over one of bytes.
pub fn rows_writer<W: Write + Drop>(below: W) -> Writer<W>
    ensures below { writer_under result ≡ below }
    ensures nothing_yet { writer_pending result ≡ [] }
    ensures ready { IsReady result }
{
    Writer::from_writer(below)
}

/// Writes the names of the columns.
pub fn write_header<W: Write + Drop>(writer: &mut Writer<W>) -> Result<(), RowError>
    requires { IsReady writer.old }
    ensures written { OnOk result (Appends (text_written W.contents writer.old) (text_written W.contents writer.new)
        (row_text default_writer columns)) }
    ensures ready { OnOk result (IsReady writer.new) }
{
    let fields: [&[u8]; 6] = [
        "node".as_bytes(),
        "kind".as_bytes(),
        "node_bit".as_bytes(),
        "bit".as_bytes(),
        "seconds".as_bytes(),
        "value".as_bytes(),
    ];
    write_fields(writer, &fields)
}

/// Writes the row of an event of a recording whose top has so many bits a second.
pub fn write_row<W: Write + Drop>(
    alloc: Global,
    writer: &mut Writer<W>,
    row: &EventRow<'_>,
    rate: u64,
) -> Result<(), RowError>
    requires ready { IsReady writer.old }
    requires some { 0 < rate }
    requires few { rate < 2 ^ 30 }
    ensures written { OnOk result (Appends (text_written W.contents writer.old) (text_written W.contents writer.new)
        (row_text default_writer (fields_of rate row.now))) }
    ensures ready { OnOk result (IsReady writer.new) }
{
    let node_bit = row.node_bit;
    let node_bit = format!(in alloc; "{node_bit}")?;
    let place = row.place;
    let bit = format!(in alloc; "{place}")?;
    let time = seconds(alloc, place, rate)?;
    let value = value_of(alloc, row.value)?;
    let fields: [&[u8]; 6] = [
        row.node.as_bytes(),
        row.kind.as_bytes(),
        node_bit.as_str().as_bytes(),
        bit.as_str().as_bytes(),
        time.as_str().as_bytes(),
        value.as_str().as_bytes(),
    ];
    write_fields(writer, &fields)
}

/// Writes out what the writer still holds, and answers what stands below it.
pub fn finish<W: Write + Drop>(writer: Writer<W>) -> Result<W, RowError>
    ensures { IfOk result (λ below. Keeps (text_written W.contents writer) (W.contents below)) }
{
    match writer.into_inner() {
        Ok(below) => Ok(below),
        Err(_) => Err(RowError::Unwritten),
    }
}
