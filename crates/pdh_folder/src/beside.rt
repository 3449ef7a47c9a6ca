//! A new file in the place of an old one: it is made beside it, and takes its name when it stands.
use arrayvec::ArrayString;
use std::fs::{self, Metadata, OpenFile, OpenOptions};
use std::io::{self, ErrorKind};
use std::rt::Files;

// How many bytes the name of a file has at most that is made beside another.
const MOST_NAME: usize = 512;

/// Makes a new, empty file that is appended to, where nothing stands under its name.
pub(crate) fn create<R: Files>(rt: &R, name: &str) -> io::Result<R::File> {
    OpenOptions::new()
        .append(true)
        .create_new(true)
        .open(rt, name)
}

// The name of a file beside another, with this ending, where it isn't too long.
fn name_beside(name: &str, ending: &str) -> io::Result<ArrayString<MOST_NAME>> {
    let mut beside = ArrayString::new();
    if beside.try_push_str(name).is_err() || beside.try_push_str(ending).is_err() {
        return Err(io::Error::from(ErrorKind::InvalidFilename));
    }
    Ok(beside)
}

// Makes a new, empty file beside another, under the first of these endings with which nothing stands there.
fn create_beside<R: Files>(rt: &R, name: &str) -> io::Result<(ArrayString<MOST_NAME>, R::File)> {
    for ending in [".new", ".new1", ".new2", ".new3"] {
        let beside = name_beside(name, ending)?;
        match create(rt, beside.as_str()) {
            Ok(file) => return Ok((beside, file)),
            Err(e) if e.kind() == ErrorKind::AlreadyExists => {}
            Err(e) => return Err(e),
        }
    }
    Err(io::Error::from(ErrorKind::AlreadyExists))
}

// Gives the file beside another that one's permissions, if it is a file, and then its name.
fn take_name<R: Files>(
    rt: &R,
    file: &R::File,
    beside: &str,
    name: &str,
    old: &Metadata,
) -> io::Result<()> {
    if old.is_file() {
        file.set_permissions(old.permissions())?;
    }
    fs::rename(rt, beside, name)
}

/// Makes a new, empty file that is appended to in the place of a file, or of a link, with this
/// metadata. The bytes that other names show stay as they are. Where that fails, the old one stands
/// still; so it does where it may not be written.
pub(crate) fn replace<R: Files>(rt: &R, name: &str, old: &Metadata) -> io::Result<R::File> {
    if old.is_file() {
        let _ = OpenOptions::new().write(true).open(rt, name)?;
    }
    let (beside, file) = create_beside(rt, name)?;
    if let Err(e) = take_name(rt, &file, beside.as_str(), name, old) {
        let _ = fs::remove_file(rt, beside.as_str());
        return Err(e);
    }
    Ok(file)
}
