//! The calls of a shelf for a command's files, with each failure as a stop of the command.

ghost use Rattle.std.specs.Prelude.{◌≡◌, length, IfOk, OnOk, IfErr};
ghost use Rattle.pdh_edge.specs.Files.{Looks, Touches, Starts, FailsToStart, Appends, FailsToAppend, Holds};
ghost use Rattle.pdh_answers.specs.Names.{name_of};
ghost use Rattle.pdh_runner.specs.Reading.{HasLength, IsSizeStop, IsReadStop};
ghost use Rattle.pdh_runner.specs.Performing.{IsCounted};
ghost use Rattle.pdh_runner.specs.Writing.{IsStartStop, IsAppendStop};

use pdh_answers::{File, Stop};
use pdh_edge::Shelf;
use std::alloc::Global;

/// The number of bytes of an input.
pub fn size<S: Shelf>(shelf: &mut S, file: File) -> Result<u64, Stop>
    ensures looks { Looks (S.state shelf.old) (S.state shelf.new) }
    ensures ok { IfOk result (λ bytes. HasLength (name_of file) bytes (S.state shelf.new)) }
    ensures err { IfErr result (IsSizeStop file (S.state shelf.old) (S.state shelf.new)) }
    ensures counted { IsCounted (S.state shelf.old) (S.state shelf.new) result }
{
    match shelf.size(file.name().as_str()) {
        Ok(Some(bytes)) => Ok(bytes),
        Ok(None) => Err(Stop::Missing(file)),
        Err(_) => Err(Stop::Read(file)),
    }
}

/// The bytes of an input of which the number is known.
pub fn read<S: Shelf>(alloc: Global, shelf: &mut S, file: File, bytes: u64) -> Result<Vec<u8>, Stop>
    requires { HasLength (name_of file) bytes (S.state shelf.old) }
    ensures looks { Looks (S.state shelf.old) (S.state shelf.new) }
    ensures ok { IfOk result (λ content. Holds ((S.state shelf.old).told (name_of file)) content.items) }
    ensures len { IfOk result (λ content. length content.items ≡ bytes) }
    ensures err { IfErr result (IsReadStop file (S.state shelf.old) (S.state shelf.new)) }
    ensures counted { IsCounted (S.state shelf.old) (S.state shelf.new) result }
{
    let mut content = vec![in alloc; 0u8; bytes as usize]?;
    match shelf.read_at(file.name().as_str(), 0, &mut content) {
        Ok(()) => Ok(content),
        Err(_) => Err(Stop::Read(file)),
    }
}

/// Makes an output empty.
pub fn start<S: Shelf>(shelf: &mut S, file: File) -> Result<(), Stop>
    ensures kept { Touches (name_of file) (S.state shelf.old) (S.state shelf.new) }
    ensures ok { OnOk result (Starts (name_of file) (S.state shelf.old) (S.state shelf.new)) }
    ensures err { IfErr result (IsStartStop file (S.state shelf.old) (S.state shelf.new)) }
    ensures counted { IsCounted (S.state shelf.old) (S.state shelf.new) result }
{
    match shelf.start(file.name().as_str()) {
        Ok(()) => Ok(()),
        Err(_) => Err(Stop::Write(file)),
    }
}

/// Adds bytes to an output.
pub fn append<S: Shelf>(shelf: &mut S, file: File, bytes: &[u8]) -> Result<(), Stop>
    ensures kept { Touches (name_of file) (S.state shelf.old) (S.state shelf.new) }
    ensures ok { OnOk result (Appends (name_of file) bytes.now (S.state shelf.old) (S.state shelf.new)) }
    ensures err { IfErr result (IsAppendStop file bytes.now (S.state shelf.old) (S.state shelf.new)) }
    ensures counted { IsCounted (S.state shelf.old) (S.state shelf.new) result }
{
    match shelf.append(file.name().as_str(), bytes) {
        Ok(()) => Ok(()),
        Err(_) => Err(Stop::Write(file)),
    }
}
