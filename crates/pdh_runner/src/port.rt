//! The files of a command as the lists of a port.
ghost use Rattle.std.specs.Prelude.{◌≡◌, ◌≢◌, ◌<◌, ◌+◌, [], ◌∷◌, length, map, OnOk, IfOk, IfErr, OnErr};
ghost use Rattle.std.specs.String.{string_bytes};
ghost use Rattle.pdh_edge.specs.Ports.{PutsPart, HasCause, nothing};
ghost use Rattle.pdh_blocks.specs.State.{over};
ghost use Rattle.pdh_blocks.specs.Lists.{outputs_of};
ghost use Rattle.pdh_blocks.specs.Kept.{Drains};
ghost use Rattle.pdh_blocks.specs.Opened.{IsWritten};
ghost use Rattle.pdh_answers.specs.Names.{name_of};
ghost use Rattle.pdh_runner.specs.Hearing.{IsCallStop};
ghost use Rattle.pdh_runner.specs.PortFiles.{AreFiles, AreSources, opened_for, HasFiles, IsStopAt, IsStopOf};

use pdh_answers::{Done, File, Stop};
use pdh_blocks::{NoPort, ShelfPort, Source};
use pdh_edge::Shelf;
use std::alloc::{AllocError, Global};

/// What a command over a port answers, and the shelf that it was handed.
#[derive(Drop)]
pub struct Ended<S> {
    /// The shelf.
    pub shelf: S,
    /// The answer.
    pub answer: Result<Done, Stop>,
}

impl<S: Shelf> Ended<S> {
    /// This answer, and this shelf.
    pub fn new(shelf: S, answer: Result<Done, Stop>) -> Ended<S>
        ensures back { result.shelf ≡ shelf }
        ensures answer { result.answer ≡ answer }
    {
        Ended { shelf, answer }
    }
}

/// A file of which a port gives the first bits, so many.
#[derive(Clone, Copy, Debug, PartialEq, Eq)]
pub struct Input {
    /// The file.
    pub file: File,
    /// How many of its first bits.
    pub bits: u64,
}

/// The files of a port, in order: those that it reads, and then those that it writes.
#[derive(Drop)]
pub struct PortFiles {
    /// Those that it reads.
    pub inputs: Vec<Input>,
    /// Those that it writes.
    pub outputs: Vec<File>,
}

// The name of a file.
fn name(alloc: Global, file: File) -> Result<String, AllocError>
    ensures { IfOk result (λ name. string_bytes name ≡ name_of file) }
{
    String::from_str(alloc, file.name().as_str())
}

// What a port reads.
fn sources(alloc: Global, inputs: &[Input]) -> Result<Vec<Source>, AllocError>
    ensures { IfOk result (λ sources. AreSources inputs.now sources.items) }
{
    let mut sources = Vec::with_capacity(alloc, inputs.len())?;
    for input in inputs {
        sources.push(Source {
            name: name(alloc, input.file)?,
            bits: input.bits,
        })?;
    }
    Ok(sources)
}

// What it writes.
fn names(alloc: Global, outputs: &[File]) -> Result<Vec<String>, AllocError>
    ensures { IfOk result (λ names. map string_bytes names.items ≡ map name_of outputs.now) }
{
    let mut names = Vec::with_capacity(alloc, outputs.len())?;
    for file in outputs {
        names.push(name(alloc, *file)?)?;
    }
    Ok(names)
}

impl PortFiles {
    /// The file of one input and that of one output.
    pub fn line_to_line(alloc: Global, input: Input, output: File) -> Result<PortFiles, AllocError>
        ensures inputs { IfOk result (λ files. files.inputs.items ≡ input ∷ []) }
        ensures outputs { IfOk result (λ files. files.outputs.items ≡ output ∷ []) }
    {
        let mut inputs = Vec::with_capacity(alloc, 1)?;
        inputs.push(input)?;
        let mut outputs = Vec::with_capacity(alloc, 1)?;
        outputs.push(output)?;
        Ok(PortFiles { inputs, outputs })
    }

    /// The file of one input.
    pub fn line(alloc: Global, input: Input) -> Result<PortFiles, AllocError>
        ensures inputs { IfOk result (λ files. files.inputs.items ≡ input ∷ []) }
        ensures outputs { IfOk result (λ files. files.outputs.items ≡ []) }
    {
        let mut inputs = Vec::with_capacity(alloc, 1)?;
        inputs.push(input)?;
        Ok(PortFiles {
            inputs,
            outputs: Vec::new(alloc),
        })
    }

    /// A fresh port over a shelf for these files; or it finds no memory, and hands the shelf back.
    pub fn open<S: Shelf>(&self, alloc: Global, shelf: S) -> Result<ShelfPort<S>, NoPort<S>>
        requires { AreFiles (S.state shelf) self.now.inputs.items self.now.outputs.items }
        ensures opened { IfOk result (λ port. over (S.state port.shelf) port.blocks ≡ opened_for (S.state shelf) self.now.inputs.items self.now.outputs.items) }
        ensures back { IfErr result (λ none. none.shelf ≡ shelf) }
    {
        let Ok(reads) = sources(alloc, &self.inputs) else {
            return Err(NoPort { shelf });
        };
        let Ok(writes) = names(alloc, &self.outputs) else {
            return Err(NoPort { shelf });
        };
        ShelfPort::open(alloc, shelf, &reads, &writes)
    }

    // How a call that failed for the file of this number ends the command.
    fn stop_at(&self, number: u32) -> Stop
        requires { number < length self.now.inputs.items + length self.now.outputs.items }
        ensures at { IsStopAt self.now.inputs.items self.now.outputs.items number result }
        ensures call { IsCallStop result }
    {
        let number = number as usize;
        let inputs = self.inputs.len();
        if number < inputs {
            Stop::Read(self.inputs[number].file)
        } else {
            Stop::Write(self.outputs[number - inputs])
        }
    }

    /// How the call of a port that failed last ends the command.
    pub fn stop<S: Shelf>(&self, port: &ShelfPort<S>) -> Stop
        requires files { HasFiles self.now.inputs.items self.now.outputs.items (over (S.state port.now.shelf) port.now.blocks) }
        requires failed { port.now.blocks.feed_faults + port.now.blocks.drain_faults ≢ 0 }
        ensures of { IsStopOf self.now.inputs.items self.now.outputs.items (over (S.state port.now.shelf) port.now.blocks) result }
        ensures call { IsCallStop result }
    {
        match port.failed_name() {
            Some(number) => self.stop_at(number),
            // The port names no call only while none has failed, and one has.
            None => unreachable!(),
        }
    }

    /// Appends what waits for the outputs of a port; or a call for one of them failed.
    pub fn finish<S: Shelf>(&self, port: &mut ShelfPort<S>) -> Result<(), Stop>
        requires files { HasFiles self.now.inputs.items self.now.outputs.items (over (S.state port.old.shelf) port.old.blocks) }
        ensures drained { Drains (over (S.state port.old.shelf) port.old.blocks) (over (S.state port.new.shelf) port.new.blocks) }
        ensures same { OnOk result (outputs_of (over (S.state port.new.shelf) port.new.blocks) ≡ outputs_of (over (S.state port.old.shelf) port.old.blocks)) }
        ensures written { OnOk result (IsWritten (over (S.state port.new.shelf) port.new.blocks)) }
        ensures part { OnErr result (PutsPart nothing (outputs_of (over (S.state port.old.shelf) port.old.blocks)) (outputs_of (over (S.state port.new.shelf) port.new.blocks))) }
        ensures cause { HasCause port.old.blocks.drain_faults port.new.blocks.drain_faults result }
        ensures err { IfErr result (IsStopOf self.now.inputs.items self.now.outputs.items (over (S.state port.new.shelf) port.new.blocks)) }
        ensures call { IfErr result IsCallStop }
    {
        if port.finish().is_ok() {
            return Ok(());
        }
        Err(self.stop(port))
    }
}
