//! The rows of a line's events, if they are wanted.

ghost use Rattle.std.specs.Prelude.{[], IfOk};
ghost use Rattle.csv.specs.Writing.{text_written};
ghost use Rattle.pdh_following.specs.Rows.{header, Gained, StandReady};

use crate::fault::FollowFault;
use csv::Writer;
use pdh_event_rows::{finish, rows_writer, write_header};
use std::io::Write;

/// The writer of rows to a file, if there is one: it has written the names of the columns.
pub(crate) fn begin_rows<W: Write + Drop>(file: Option<W>) -> Result<Option<Writer<W>>, FollowFault>
    ensures ready { IfOk result (λ rows. StandReady rows) }
    ensures begun { IfOk result (λ rows. Gained W.contents (text_written W.contents) file rows header) }
{
    let Some(file) = file else {
        return Ok(None);
    };
    let mut rows = rows_writer(file);
    write_header(&mut rows)?;
    Ok(Some(rows))
}

/// Writes out what the writer of rows still holds, and answers its file.
pub(crate) fn end_rows<W: Write + Drop>(rows: Option<Writer<W>>) -> Result<Option<W>, FollowFault>
    ensures { IfOk result (λ file. Gained (text_written W.contents) W.contents rows file []) }
{
    let Some(rows) = rows else {
        return Ok(None);
    };
    let file = finish(rows)?;
    Ok(Some(file))
}
