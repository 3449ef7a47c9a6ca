//! The files of the current folder.
ghost use Rattle.std.specs.Prelude.{◌≡◌, length, IfOk, OnOk, OnErr};
ghost use Rattle.pdh_edge.specs.declared.shelf.Call.TheVariants.{Size};
ghost use Rattle.pdh_edge.specs.Files.{Looks, FailsToRead, FailsToReadRange, HasSize, HasRange, Touches, Starts, FailsToStart, Appends, FailsToAppend};
ghost use Rattle.pdh_folder.specs.Untold.{untold_files, folder_state, CountsSize, CountsRead, CountsWrite};

use crate::beside::{create, replace};
use crate::open_files::{FileId, OpenFile, OpenFiles};
use pdh_edge::{Failed, Shelf};
use std::alloc::Global;
use std::fs::{self, File, Metadata, OpenFile as _, OpenOptions};
use std::io::{self, ErrorKind, Read, Seek, SeekFrom, Write};
use std::rt::Files;

/// The files of the current folder, by their paths from there. They tell no contents, and each range
/// may be read. Where the runtime wants memory in a call and gets none, the call fails.
///
/// - **What is read** is opened when its size is asked, and stays open: it has to be a file, or a link
///   to one, that may be read. A directory, a pipe or a device is a failure.
/// - **What is started** is a new file, which takes the place of a file or a link of that name only
///   when it stands; the bytes that another name shows stay as they are. What leads to a directory, a
///   pipe, a device, or a file that is read by another name, and a file that may not be written, is a
///   failure, and stays as it is.
#[derive(Drop)]
pub struct Folder<R: Files + Drop> {
    rt: R,
    open: OpenFiles<R::File>,
    read_faults: u64,
    write_faults: u64,
    misses: u64,
}

impl<R: Files + Drop> Folder<R> {
    /// No call has failed, and no file was missed.
    pub fn new(alloc: Global, rt: R) -> Folder<R>
        ensures { folder_state result ≡ untold_files 0 0 0 }
    {
        Folder {
            rt,
            open: OpenFiles::new(alloc),
            read_faults: 0,
            write_faults: 0,
            misses: 0,
        }
    }
}

// What was found of a name, or None where nothing stands under it.
fn found(answer: io::Result<Metadata>) -> io::Result<Option<Metadata>> {
    match answer {
        Ok(data) => Ok(Some(data)),
        Err(e) if e.kind() == ErrorKind::NotFound => Ok(None),
        Err(e) => Err(e),
    }
}

// Refuses what is no file: to open a pipe could wait for whoever writes to it.
fn demand_file(data: &Metadata) -> io::Result<()> {
    if data.is_file() {
        Ok(())
    } else {
        Err(io::Error::from(ErrorKind::InvalidInput))
    }
}

// Opens a file to be read from its beginning, and tells its length; or None where nothing stands
// under its name.
fn open_to_read<R: Files + Drop>(
    rt: &R,
    name: &str,
) -> io::Result<Option<(OpenFile<R::File>, u64)>> {
    let Some(data) = found(fs::metadata(rt, name))? else {
        return Ok(None);
    };
    demand_file(&data)?;
    let file = File::open(rt, name)?;
    let data = file.metadata()?;
    let id = FileId::of(&data);
    Ok(Some((OpenFile { file, id, place: 0 }, data.len())))
}

// The length of a file, which is opened to be read; or None where nothing stands under its name.
fn look<R: Files + Drop>(
    rt: &R,
    open: &mut OpenFiles<R::File>,
    name: &str,
) -> io::Result<Option<u64>> {
    let _ = open.take(name, true);
    let Some((file, len)) = open_to_read(rt, name)? else {
        return Ok(None);
    };
    open.keep(name, true, file);
    Ok(Some(len))
}

// Takes out a file that is read, or opens it.
fn take_to_read<R: Files + Drop>(
    rt: &R,
    open: &mut OpenFiles<R::File>,
    name: &str,
) -> io::Result<OpenFile<R::File>> {
    if let Some(file) = open.take(name, true) {
        return Ok(file);
    }
    match open_to_read(rt, name)? {
        Some((file, _)) => Ok(file),
        None => Err(io::Error::from(ErrorKind::NotFound)),
    }
}

// Fills the buffer from a place of a file, which stays open unless that fails. Where it reads on from
// there, it isn't told the place.
fn fill<R: Files + Drop>(
    rt: &R,
    open: &mut OpenFiles<R::File>,
    name: &str,
    at: u64,
    into: &mut [u8],
) -> io::Result<()> {
    let mut file = take_to_read(rt, open, name)?;
    if file.place != at {
        file.file.seek(SeekFrom::Start(at))?;
    }
    file.file.read_exact(into)?;
    file.place = at.saturating_add(into.len() as u64);
    open.keep(name, true, file);
    Ok(())
}

// Refuses a name that leads to what is no file, or to a file that is read by another name.
fn demand_other<R: Files + Drop>(rt: &R, open: &OpenFiles<R::File>, name: &str) -> io::Result<()> {
    let Some(data) = found(fs::metadata(rt, name))? else {
        return Ok(());
    };
    demand_file(&data)?;
    match FileId::of(&data) {
        Some(id) if open.is_read_as_another(id, name) => {
            Err(io::Error::from(ErrorKind::AlreadyExists))
        }
        _ => Ok(()),
    }
}

// Makes a new, empty file, which stays open.
fn make_new<R: Files + Drop>(rt: &R, open: &mut OpenFiles<R::File>, name: &str) -> io::Result<()> {
    let file = match found(fs::symlink_metadata(rt, name))? {
        None => create(rt, name)?,
        Some(old) => {
            demand_other(rt, open, name)?;
            replace(rt, name, &old)?
        }
    };
    open.close(name);
    let id = None;
    open.keep(name, false, OpenFile { file, id, place: 0 });
    Ok(())
}

// Adds bytes at the end of a file, which stays open unless that fails.
fn add<R: Files + Drop>(
    rt: &R,
    open: &mut OpenFiles<R::File>,
    name: &str,
    bytes: &[u8],
) -> io::Result<()> {
    let mut file = match open.take(name, false) {
        Some(file) => file,
        None => OpenFile {
            file: OpenOptions::new().append(true).open(rt, name)?,
            id: None,
            place: 0,
        },
    };
    file.file.write_all(bytes)?;
    open.keep(name, false, file);
    Ok(())
}

impl<R: Files + Drop> Shelf for Folder<R> {
    ghost state = { folder_state };

    fn read_faults(&self) -> u64 {
        self.read_faults
    }

    fn write_faults(&self) -> u64 {
        self.write_faults
    }

    fn misses(&self) -> u64 {
        self.misses
    }

    fn size(&mut self, name: &str) -> Result<Option<u64>, Failed>
        ensures kept { Looks (folder_state self.old) (folder_state self.new) }
        ensures ok { IfOk result (HasSize name.now
            (folder_state self.old) (folder_state self.new)) }
        ensures err { OnErr result (FailsToRead Size name.now
            (folder_state self.old) (folder_state self.new)) }
        ensures counts { CountsSize (folder_state self.old) (folder_state self.new) result }
    {
        match look(&self.rt, &mut self.open, name) {
            Ok(Some(len)) => Ok(Some(len)),
            Ok(None) => {
                self.misses = self.misses.saturating_add(1);
                Ok(None)
            }
            Err(_) => {
                self.read_faults = self.read_faults.saturating_add(1);
                Err(Failed)
            }
        }
    }

    fn read_at(&mut self, name: &str, at: u64, into: &mut [u8]) -> Result<(), Failed>
        ensures kept { Looks (folder_state self.old) (folder_state self.new) }
        ensures ok { OnOk result (HasRange name.now at into.new
            (folder_state self.old) (folder_state self.new)) }
        ensures err { OnErr result (FailsToReadRange name.now (record { at = at; len = length into.old })
            (folder_state self.old) (folder_state self.new)) }
        ensures counts { CountsRead (folder_state self.old) (folder_state self.new) result }
    {
        if fill(&self.rt, &mut self.open, name, at, into).is_ok() {
            return Ok(());
        }
        self.read_faults = self.read_faults.saturating_add(1);
        Err(Failed)
    }

    fn start(&mut self, name: &str) -> Result<(), Failed>
        ensures kept { Touches name.now (folder_state self.old) (folder_state self.new) }
        ensures ok { OnOk result (Starts name.now (folder_state self.old) (folder_state self.new)) }
        ensures err { OnErr result (FailsToStart name.now
            (folder_state self.old) (folder_state self.new)) }
        ensures counts { CountsWrite (folder_state self.old) (folder_state self.new) result }
    {
        if make_new(&self.rt, &mut self.open, name).is_ok() {
            return Ok(());
        }
        self.write_faults = self.write_faults.saturating_add(1);
        Err(Failed)
    }

    fn append(&mut self, name: &str, bytes: &[u8]) -> Result<(), Failed>
        ensures kept { Touches name.now (folder_state self.old) (folder_state self.new) }
        ensures ok { OnOk result (Appends name.now bytes.now
            (folder_state self.old) (folder_state self.new)) }
        ensures err { OnErr result (FailsToAppend name.now bytes.now
            (folder_state self.old) (folder_state self.new)) }
        ensures counts { CountsWrite (folder_state self.old) (folder_state self.new) result }
    {
        if add(&self.rt, &mut self.open, name, bytes).is_ok() {
            return Ok(());
        }
        self.write_faults = self.write_faults.saturating_add(1);
        Err(Failed)
    }
}
