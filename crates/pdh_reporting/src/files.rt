//! The files of a run's outputs.

use crate::stop::Stop;
use pdh_outputs::OutputFiles;
use pdh_report_words::{Named, Outputs};
use std::fs::Files;
use std::io::Write;

/// The files in which the outputs are written, where they are wanted.
#[derive(Drop)]
pub(crate) struct Handles<F: Drop> {
    /// That of every event.
    pub(crate) events: Option<F>,
    /// That of the table.
    pub(crate) json: Option<F>,
    /// That of the picture.
    pub(crate) picture: Option<F>,
}

// Begins an output, if it is wanted.
fn begin<'a, R: Files>(
    rt: &R,
    outputs: &mut OutputFiles<'a>,
    named: Named,
    name: Option<&'a str>,
) -> Result<Option<R::File>, Stop<'a>> {
    let Some(name) = name else {
        return Ok(None);
    };
    let file = outputs.begin(rt, named, name)?;
    Ok(Some(file))
}

/// Begins the outputs that are wanted.
pub(crate) fn begin_all<'a, R: Files>(
    rt: &R,
    outputs: &mut OutputFiles<'a>,
    wanted: &Outputs<'a>,
) -> Result<Handles<R::File>, Stop<'a>> {
    let events = begin(rt, outputs, Named::Events, wanted.events)?;
    let json = begin(rt, outputs, Named::Json, wanted.json)?;
    let picture = begin(rt, outputs, Named::Picture, wanted.picture)?;
    Ok(Handles {
        events,
        json,
        picture,
    })
}

/// Writes a whole text to the file of an output.
pub(crate) fn write_text<'a, F: Write>(
    file: &mut F,
    text: &str,
    name: Option<&'a str>,
) -> Result<(), Stop<'a>> {
    match file.write_all(text.as_bytes()) {
        Ok(()) => Ok(()),
        Err(_) => Err(Stop::Output(name.unwrap_or(""))),
    }
}
