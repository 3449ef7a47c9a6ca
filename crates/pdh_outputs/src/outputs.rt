//! All outputs of a run.

ghost use Rattle.std.specs.Prelude.{◌≡◌, [], ◌∷◌, ◌++◌, OnOk, OnErr};
ghost use Rattle.pdh_outputs.specs.Outputs.{named_as, owner_of, names_begun, begun_as};

use crate::begun::{Begun, create, demand_writable, found};
use crate::fault::OutputFault;
use crate::file_id::FileId;
use pdh_report_words::Named;
use std::alloc::Global;
use std::fs::{self, Files, Metadata, OpenFile as _};
use std::io;

/// The outputs of a run that are begun, in the order in which they take their names.
#[derive(Drop)]
pub struct OutputFiles<'a> {
    alloc: Global,
    recording: Option<FileId>,
    begun: Vec<Begun<'a>>,
}

// Gives a new file the permissions of another one, and tells which file it is.
fn prepare<R: Files>(file: &R::File, old: Option<&Metadata>) -> io::Result<FileId> {
    if let Some(data) = old {
        file.set_permissions(data.permissions())?;
    }
    Ok(FileId::of(&file.metadata()?))
}

// As what the words name the output that is this file, if one is.
fn named_as(begun: &[Begun<'_>], id: FileId) -> Option<Named>
    ensures { result ≡ named_as begun.now id }
{
    begun
        .iter()
        .find(|begun| begun.id == id)
        .map(|begun| begun.named)
}

impl<'a> OutputFiles<'a> {
    /// None is begun. The recording is a file of which the system tells this, if it is one.
    pub fn new(alloc: Global, recording: Option<&Metadata>) -> OutputFiles<'a>
        ensures { result.begun.items ≡ [] }
    {
        OutputFiles {
            alloc,
            recording: recording.map(|data| FileId::of(data)),
            begun: Vec::new(alloc),
        }
    }

    // The file that the words name by another word too, if it is this one.
    fn owner(&self, id: FileId) -> Option<Named>
        ensures { result ≡ owner_of self.now.recording self.now.begun.items id }
    {
        if self.recording.is_some_and(|recording| recording == id) {
            return Some(Named::Recording);
        }
        named_as(&self.begun, id)
    }

    // Refuses a name under which the recording or an output stands that is begun.
    fn demand_free<R: Files>(
        &self,
        rt: &R,
        named: Named,
        name: &str,
    ) -> Result<(), OutputFault<'a>> {
        let Ok(data) = fs::metadata(rt, name) else {
            return Ok(());
        };
        match self.owner(FileId::of(&data)) {
            Some(Named::Recording) => Err(OutputFault::OneFile(named, Named::Recording)),
            Some(other) => Err(OutputFault::OneFile(other, named)),
            None => Ok(()),
        }
    }

    // Makes the file in which an output is written, with the permissions of what stands under its name.
    fn create_part<R: Files>(
        &self,
        rt: &R,
        name: &str,
        part: &str,
    ) -> io::Result<(R::File, FileId)> {
        let old = found(fs::metadata(rt, name))?;
        if let Some(data) = &old {
            demand_writable(rt, name, data)?;
        }
        let file = create(rt, part)?;
        match prepare::<R>(&file, old.as_ref()) {
            Ok(id) => Ok((file, id)),
            Err(e) => {
                let _ = fs::remove_file(rt, part);
                Err(e)
            }
        }
    }

    /// Begins an output, and answers the file in which it is written, beside its name.
    pub fn begin<R: Files>(
        &mut self,
        rt: &R,
        named: Named,
        name: &'a str,
    ) -> Result<R::File, OutputFault<'a>>
        ensures begun { OnOk result (names_begun self.new.begun.items ≡ names_begun self.old.begun.items ++ begun_as named name.now ∷ []) }
        ensures kept { OnErr result (names_begun self.new.begun.items ≡ names_begun self.old.begun.items) }
        ensures recording { self.new.recording ≡ self.old.recording }
    {
        let Ok(part) = format!(in self.alloc; "{name}.part") else {
            return Err(OutputFault::OutOfMemory);
        };
        if self.begun.reserve(1).is_err() {
            return Err(OutputFault::OutOfMemory);
        }
        self.demand_free(rt, named, name)?;
        self.demand_free(rt, named, part.as_str())?;
        let Ok((file, id)) = self.create_part(rt, name, part.as_str()) else {
            return Err(OutputFault::Unwritten(name));
        };
        let begun = Begun {
            named,
            name,
            part,
            id,
        };
        if self.begun.push(begun).is_err() {
            return Err(OutputFault::OutOfMemory);
        }
        Ok(file)
    }

    // Gives an output its name, unless another one of the run stands under it.
    fn take_name<R: Files>(&self, rt: &R, begun: &Begun<'a>) -> Result<(), OutputFault<'a>> {
        self.demand_free(rt, begun.named, begun.name)?;
        match fs::rename(rt, begun.part.as_str(), begun.name) {
            Ok(()) => Ok(()),
            Err(_) => Err(OutputFault::Unwritten(begun.name)),
        }
    }

    /// Gives all outputs their names, which are whole. After a fault those that have none yet are removed.
    pub fn take_names<R: Files>(&self, rt: &R) -> Result<(), OutputFault<'a>> {
        for begun in &self.begun {
            if let Err(fault) = self.take_name(rt, begun) {
                self.remove(rt);
                return Err(fault);
            }
        }
        Ok(())
    }

    /// Removes all outputs that have no name yet.
    pub fn remove<R: Files>(&self, rt: &R) {
        for begun in &self.begun {
            let _ = fs::remove_file(rt, begun.part.as_str());
        }
    }
}
