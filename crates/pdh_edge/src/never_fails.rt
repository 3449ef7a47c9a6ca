//! A shelf and a sink no call of which ever fails, so that their counts of faults are the constant 0. What a run answers over them
//! rests on no premise about devices.
ghost use Rattle.std.specs.Prelude.{◌≡◌, ◌≢◌, List, ℕ, Some, None, length, map, IfOk, OnOk, OnErr};
ghost use Rattle.pdh_edge.specs.Files.{Touches, Appends, FailsToAppend, Sends, FailsToSend};
ghost use Rattle.std.specs.Option.{option_copied};
ghost use Rattle.std.specs.String.{string_bytes};
ghost use Rattle.pdh_edge.specs.NeverFails.{shelf_state, sink_state, held_in, taken_after, AllDiffer, TellsInputs};

use crate::{Failed, Shelf, Sink};
use std::alloc::{AllocError, Global};
use std::collections::BTreeMap;

// A file that can be read until it is written.
#[derive(Drop)]
struct InputFile {
    bytes: Vec<u8>,
    written: bool,
}

/// Input files in memory, and a place for everything that is written, of which only the number of
/// bytes is kept. No call fails. A file that is an input is told until it is started or appended to;
/// nothing is told of any other file.
#[derive(Drop)]
pub struct NeverFails {
    inputs: BTreeMap<String, InputFile>,
    misses: u64,
    taken: u64,
}

impl NeverFails {
    /// Holds copies of these files under these names, which differ: a name for each file.
    pub fn open(
        alloc: Global,
        names: &[String],
        files: &[Vec<u8>],
    ) -> Result<NeverFails, AllocError>
        requires same { length names.now ≡ length files.now }
        requires differ { AllDiffer (map string_bytes names.now) }
        ensures inputs { IfOk result (λ shelf. TellsInputs (map string_bytes names.now)
            (map (λ file. file.items) files.now) (shelf_state shelf)) }
        ensures taken { IfOk result (λ shelf. shelf.taken ≡ 0) }
    {
        let mut inputs = BTreeMap::new(alloc);
        for place in 0..names.len() {
            NeverFails::add(alloc, &mut inputs, &names[place], &files[place])?;
        }
        Ok(NeverFails {
            inputs,
            misses: 0,
            taken: 0,
        })
    }

    /// How many bytes were written in all, to files and to it as a sink. At `u64::MAX` the count
    /// stands.
    pub fn taken(&self) -> u64
        ensures { result ≡ self.now.taken }
    {
        self.taken
    }

    // Adds a copy of an input.
    #[tactic(auto, using(std::proofs::lemmas::Map::Text::text_keys))]
    fn add(
        alloc: Global,
        inputs: &mut BTreeMap<String, InputFile>,
        name: &str,
        bytes: &[u8],
    ) -> Result<(), AllocError>
        ensures here { OnOk result (held_in inputs.new name.now ≡ Some bytes.now) }
        ensures others { OnOk result ((other : List ℕ) → other ≢ name.now
            → held_in inputs.new other ≡ held_in inputs.old other) }
    {
        let file = InputFile {
            bytes: Vec::from_slice(alloc, bytes)?,
            written: false,
        };
        inputs.insert(String::from_str(alloc, name)?, file)?;
        Ok(())
    }

    // The bytes of an input that wasn't written.
    fn input(&self, name: &str) -> Option<&[u8]>
        ensures { option_copied result ≡ held_in self.now.inputs name.now }
    {
        match self.inputs.get(name) {
            Some(file) if !file.written => Some(&file.bytes),
            _ => None,
        }
    }

    // Forgets the bytes of a file that is written.
    #[tactic(auto, using(std::proofs::lemmas::Map::Text::text_keys))]
    fn write(inputs: &mut BTreeMap<String, InputFile>, name: &str)
        ensures here { held_in inputs.new name.now ≡ None }
        ensures others { (other : List ℕ) → other ≢ name.now
            → held_in inputs.new other ≡ held_in inputs.old other }
    {
        if let Some(file) = inputs.get_mut(name) {
            file.written = true;
        }
    }

    // Counts bytes that are taken.
    fn take(&mut self, bytes: &[u8])
        ensures { self.new ≡ record self.old {
          taken = taken_after (length bytes.now) self.old.taken;
        } }
    {
        self.taken = self.taken.saturating_add(bytes.len() as u64);
    }
}

impl Shelf for NeverFails {
    ghost state = { shelf_state };

    fn read_faults(&self) -> u64 {
        0
    }

    fn write_faults(&self) -> u64 {
        0
    }

    fn misses(&self) -> u64 {
        self.misses
    }

    fn size(&mut self, name: &str) -> Result<Option<u64>, Failed> {
        let size = self.input(name).map(|bytes| bytes.len() as u64);
        if size.is_none() {
            self.misses = self.misses.saturating_add(1);
        }
        Ok(size)
    }

    fn read_at(&mut self, name: &str, at: u64, into: &mut [u8]) -> Result<(), Failed> {
        if let Some(bytes) = self.input(name) {
            let at = at as usize;
            into.copy_from_slice(&bytes[at..at + into.len()]);
        }
        Ok(())
    }

    fn start(&mut self, name: &str) -> Result<(), Failed> {
        NeverFails::write(&mut self.inputs, name);
        Ok(())
    }

    fn append(&mut self, name: &str, bytes: &[u8]) -> Result<(), Failed>
        ensures kept { Touches name.now (shelf_state self.old) (shelf_state self.new) }
        ensures ok { OnOk result (Appends name.now bytes.now
            (shelf_state self.old) (shelf_state self.new)) }
        ensures err { OnErr result (FailsToAppend name.now bytes.now
            (shelf_state self.old) (shelf_state self.new)) }
        ensures taken { self.new.taken ≡ taken_after (length bytes.now) self.old.taken }
    {
        NeverFails::write(&mut self.inputs, name);
        NeverFails::take(self, bytes);
        Ok(())
    }
}

impl Sink for NeverFails {
    ghost state = { sink_state };

    fn faults(&self) -> u64 {
        0
    }

    fn write(&mut self, bytes: &[u8]) -> Result<(), Failed>
        ensures ok { OnOk result (Sends bytes.now (sink_state self.old) (sink_state self.new)) }
        ensures err { OnErr result (FailsToSend bytes.now
            (sink_state self.old) (sink_state self.new)) }
        ensures taken { self.new.taken ≡ taken_after (length bytes.now) self.old.taken }
    {
        self.take(bytes);
        Ok(())
    }
}
