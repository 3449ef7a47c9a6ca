//! An output that is begun.

use crate::file_id::FileId;
use pdh_report_words::Named;
use std::fs::{self, Files, Metadata, OpenOptions};
use std::io::{self, ErrorKind};

/// An output that is begun: its name, and the file beside it in which it is written.
#[derive(Drop)]
pub(crate) struct Begun<'a> {
    pub(crate) named: Named,
    pub(crate) name: &'a str,
    pub(crate) part: String,
    pub(crate) id: FileId,
}

/// What was found of a name, or None where nothing stands under it.
pub(crate) fn found(answer: io::Result<Metadata>) -> io::Result<Option<Metadata>> {
    match answer {
        Ok(data) => Ok(Some(data)),
        Err(e) if e.kind() == ErrorKind::NotFound => Ok(None),
        Err(e) => Err(e),
    }
}

/// Refuses what is no file that may be written.
pub(crate) fn demand_writable<R: Files>(rt: &R, name: &str, data: &Metadata) -> io::Result<()> {
    if !data.is_file() {
        return Err(io::Error::from(ErrorKind::InvalidInput));
    }
    let _ = OpenOptions::new().write(true).open(rt, name)?;
    Ok(())
}

/// Makes a new, empty file, where nothing stands under its name; a file that an earlier run left there goes.
pub(crate) fn create<R: Files>(rt: &R, part: &str) -> io::Result<R::File> {
    if let Some(data) = found(fs::symlink_metadata(rt, part))? {
        if !data.is_file() {
            return Err(io::Error::from(ErrorKind::AlreadyExists));
        }
        fs::remove_file(rt, part)?;
    }
    OpenOptions::new()
        .write(true)
        .create_new(true)
        .open(rt, part)
}
