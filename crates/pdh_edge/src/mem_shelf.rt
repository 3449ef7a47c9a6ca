//! A shelf in memory, whose calls fail as planned.

ghost use Rattle.std.specs.Prelude.{◌≡◌, ◌≢◌, ◌↔◌, List, ℕ, true, length, option_map, is_some, IsTrue, IfOk, OnOk, OnErr};
ghost use Rattle.std.specs.Option.{option_copied, option_and_then};
ghost use Rattle.pdh_edge.specs.declared.shelf.Call.TheVariants.{Size};
ghost use Rattle.pdh_edge.specs.Files.{Looks, FailsToRead, FailsToReadRange, FailsToWrite, HasSize, HasRange, Touches, Starts, FailsToStart, Appends, FailsToAppend};
ghost use Rattle.pdh_edge.specs.MemFiles.{mem_state, shelf_state, file_in, file_of, IsNew, ChangesFile, file_after_hold, file_after_room, with_planned, SizesInMemory, ReadsInMemory, StartsInMemory, AppendsInMemory, after_read_fault, after_write_fault, failed_of, range_of, range_in, failed_told_after, range_told_after, file_after_start, file_after_append, can_grow};

use crate::buffer::Buffer;
use crate::plan::Plan;
use crate::{Call, Failed, Shelf};
use arrayvec::ArrayString;
use std::alloc::{AllocError, Global};
use std::collections::BTreeMap;

#[derive(Drop)]
struct Slot {
    held: bool,
    started: bool,
    has_room: bool,
    buffer: Buffer,
}

/// Files in memory, which tells what they hold. The calls of `Shelf` take no memory: one fails
/// exactly where that was planned or the files don't allow it, and then takes nothing. The last call
/// that failed is told where its name has at most 32 bytes, and the bytes that it asked for.
///
/// The other calls want memory. After an `AllocError` nothing has changed.
#[derive(Drop)]
pub struct MemShelf {
    alloc: Global,
    slots: BTreeMap<String, Slot>,
    sizes: Plan,
    reads: Plan,
    starts: Plan,
    appends: Plan,
    read_faults: u64,
    write_faults: u64,
    misses: u64,
    last: Option<LastFailed>,
}

// The last call that failed, and the bytes that it asked for, if it asked for any.
#[derive(Clone, Copy)]
struct LastFailed {
    call: Call,
    name: ArrayString<32>,
    asked: Option<Asked>,
}

// So many bytes of a file, from a place on.
#[derive(Clone, Copy)]
struct Asked {
    at: u64,
    len: usize,
}

impl MemShelf {
    /// No file. No call is to fail.
    pub fn open(alloc: Global) -> Result<MemShelf, AllocError>
        ensures { IfOk result (λ shelf. IsNew (mem_state shelf)) }
    {
        Ok(MemShelf {
            alloc,
            slots: BTreeMap::new(alloc),
            sizes: Plan::new(alloc),
            reads: Plan::new(alloc),
            starts: Plan::new(alloc),
            appends: Plan::new(alloc),
            read_faults: 0,
            write_faults: 0,
            misses: 0,
            last: None,
        })
    }

    /// Sets a file, which then isn't started. Its room stays.
    pub fn hold(&mut self, name: &str, bytes: &[u8]) -> Result<(), AllocError>
        ensures ok { OnOk result (ChangesFile name.now (file_after_hold bytes.now)
            (mem_state self.old) (mem_state self.new)) }
        ensures err { OnErr result (mem_state self.new ≡ mem_state self.old) }
    {
        let room = self.room_of(name);
        let slot = Slot {
            held: true,
            started: false,
            has_room: room.is_some(),
            buffer: Buffer::holding(self.alloc, room.unwrap_or(0), bytes)?,
        };
        self.set(name, slot)
    }

    /// Makes room for an output file of at most that many bytes, which doesn't hold it yet. Of a
    /// file that is held its bytes stay.
    pub fn room(&mut self, name: &str, bytes: u64) -> Result<(), AllocError>
        ensures ok { OnOk result (ChangesFile name.now (file_after_room bytes)
            (mem_state self.old) (mem_state self.new)) }
        ensures err { OnErr result (mem_state self.new ≡ mem_state self.old) }
    {
        let slot = match self.slots.get(name) {
            Some(slot) => Slot {
                held: slot.held,
                started: slot.started,
                has_room: true,
                buffer: Buffer::holding(self.alloc, bytes, slot.buffer.bytes())?,
            },
            None => Slot {
                held: false,
                started: false,
                has_room: true,
                buffer: Buffer::holding(self.alloc, bytes, &[])?,
            },
        };
        self.set(name, slot)
    }

    /// Lets the call of that kind with that number, from 0, fail.
    pub fn fail(&mut self, call: Call, number: u64) -> Result<(), AllocError>
        ensures ok { OnOk result (mem_state self.new ≡ with_planned call number
            (mem_state self.old)) }
        ensures err { OnErr result (mem_state self.new ≡ mem_state self.old) }
    {
        match call {
            Call::Size => self.sizes.fail(number),
            Call::Read => self.reads.fail(number),
            Call::Start => self.starts.fail(number),
            Call::Append => self.appends.fail(number),
        }
    }

    /// The bytes of a file that is held.
    pub fn file(&self, name: &str) -> Option<&[u8]>
        ensures { option_copied result ≡ ((mem_state self.now).files name.now).held }
    {
        match self.slots.get(name) {
            Some(slot) if slot.held => Some(slot.buffer.bytes()),
            _ => None,
        }
    }

    // The number of bytes that a file has room for.
    fn room_of(&self, name: &str) -> Option<u64>
        ensures { result ≡ (file_in self.now.slots name.now).room }
    {
        match self.slots.get(name) {
            Some(slot) if slot.has_room => Some(slot.buffer.room()),
            _ => None,
        }
    }

    // Puts a slot in place of that of a name.
    #[tactic(auto, using(std::proofs::lemmas::Map::Text::text_keys))]
    fn set(&mut self, name: &str, slot: Slot) -> Result<(), AllocError>
        ensures ok { OnOk result (ChangesFile name.now (λ _. file_of slot)
            (mem_state self.old) (mem_state self.new)) }
        ensures err { OnErr result (mem_state self.new ≡ mem_state self.old) }
    {
        self.slots
            .insert(String::from_str(self.alloc, name)?, slot)?;
        Ok(())
    }

    // Whether a file was started and has room for so many more bytes.
    fn can_append(&self, name: &str, count: usize) -> bool
        ensures { result ≡ can_grow (file_in self.now.slots name.now) count }
    {
        match self.slots.get(name) {
            Some(slot) => slot.held && slot.started && slot.has_room && slot.buffer.fits(count),
            None => false,
        }
    }

    // Makes a file with room empty.
    #[tactic(auto, using(std::proofs::lemmas::Map::Text::text_keys))]
    fn make_empty(slots: &mut BTreeMap<String, Slot>, name: &str)
        requires { IsTrue (is_some (file_in slots.old name.now).room) }
        ensures here { file_in slots.new name.now ≡ file_after_start (file_in slots.old name.now) }
        ensures others { (other : List ℕ) → other ≢ name.now
            → file_in slots.new other ≡ file_in slots.old other }
    {
        if let Some(slot) = slots.get_mut(name) {
            slot.held = true;
            slot.started = true;
            slot.buffer.clear();
        }
    }

    // Adds bytes to a file that takes them.
    #[tactic(auto, using(std::proofs::lemmas::Map::Text::text_keys))]
    fn add(slots: &mut BTreeMap<String, Slot>, name: &str, bytes: &[u8])
        requires { IsTrue (can_grow (file_in slots.old name.now) (length bytes.now)) }
        ensures here { file_in slots.new name.now
            ≡ file_after_append bytes.now (file_in slots.old name.now) }
        ensures others { (other : List ℕ) → other ≢ name.now
            → file_in slots.new other ≡ file_in slots.old other }
    {
        if let Some(slot) = slots.get_mut(name) {
            slot.buffer.append(bytes);
        }
    }

    // What to tell after a call with that name failed, which asked for these bytes, or for none.
    fn told(call: Call, name: &str, asked: Option<Asked>) -> Option<LastFailed>
        ensures call { option_map failed_of result ≡ failed_told_after call name.now }
        ensures range { option_and_then range_in result ≡ range_told_after name.now (option_map range_of asked) }
    {
        match ArrayString::from(name) {
            Ok(name) => Some(LastFailed { call, name, asked }),
            Err(_) => None,
        }
    }

    // Counts a call with that name that failed to read, and asked for these bytes, or for none.
    fn read_failed(&mut self, call: Call, name: &str, asked: Option<Asked>) -> Failed
        ensures memory { mem_state self.new
            ≡ after_read_fault call name.now (option_map range_of asked) (mem_state self.old) }
        ensures slots { self.new.slots ≡ self.old.slots }
        ensures kept { Looks (shelf_state self.old) (shelf_state self.new) }
        ensures fails { FailsToRead call name.now (shelf_state self.old) (shelf_state self.new) }
    {
        self.read_faults = self.read_faults.saturating_add(1);
        self.last = MemShelf::told(call, name, asked);
        Failed
    }

    // Counts a call with that name that failed to write.
    fn write_failed(&mut self, call: Call, name: &str) -> Failed
        ensures memory { mem_state self.new ≡ after_write_fault call name.now (mem_state self.old) }
        ensures slots { self.new.slots ≡ self.old.slots }
        ensures kept { Touches name.now (shelf_state self.old) (shelf_state self.new) }
        ensures fails { FailsToWrite call name.now (shelf_state self.old) (shelf_state self.new) }
    {
        self.write_faults = self.write_faults.saturating_add(1);
        self.last = MemShelf::told(call, name, None);
        Failed
    }
}

impl Shelf for MemShelf {
    ghost state = { shelf_state };

    fn read_faults(&self) -> u64 {
        self.read_faults
    }

    fn write_faults(&self) -> u64 {
        self.write_faults
    }

    fn misses(&self) -> u64 {
        self.misses
    }

    fn size(&mut self, name: &str) -> Result<Option<u64>, Failed>
        ensures kept { Looks (shelf_state self.old) (shelf_state self.new) }
        ensures ok { IfOk result (HasSize name.now (shelf_state self.old) (shelf_state self.new)) }
        ensures err { OnErr result (FailsToRead Size name.now
            (shelf_state self.old) (shelf_state self.new)) }
        ensures memory { SizesInMemory name.now (mem_state self.old) (mem_state self.new) result }
    {
        if self.sizes.count() {
            return Err(self.read_failed(Call::Size, name, None));
        }
        let size = self.file(name).map(|bytes| bytes.len() as u64);
        if size.is_none() {
            self.misses = self.misses.saturating_add(1);
        }
        Ok(size)
    }

    fn read_at(&mut self, name: &str, at: u64, into: &mut [u8]) -> Result<(), Failed>
        ensures kept { Looks (shelf_state self.old) (shelf_state self.new) }
        ensures ok { OnOk result (HasRange name.now at into.new
            (shelf_state self.old) (shelf_state self.new)) }
        ensures err { OnErr result (FailsToReadRange name.now (record { at = at; len = length into.old })
            (shelf_state self.old) (shelf_state self.new)) }
        ensures memory { ReadsInMemory name.now at into.old into.new
            (mem_state self.old) (mem_state self.new) result }
    {
        let asked = Some(Asked {
            at,
            len: into.len(),
        });
        if self.reads.count() {
            return Err(self.read_failed(Call::Read, name, asked));
        }
        let at = at as usize;
        match self.file(name) {
            Some(bytes) if at <= bytes.len() && into.len() <= bytes.len() - at => {
                into.copy_from_slice(&bytes[at..at + into.len()]);
                Ok(())
            }
            _ => Err(self.read_failed(Call::Read, name, asked)),
        }
    }

    fn start(&mut self, name: &str) -> Result<(), Failed>
        ensures kept { Touches name.now (shelf_state self.old) (shelf_state self.new) }
        ensures ok { OnOk result (Starts name.now (shelf_state self.old) (shelf_state self.new)) }
        ensures err { OnErr result (FailsToStart name.now
            (shelf_state self.old) (shelf_state self.new)) }
        ensures memory { StartsInMemory name.now (mem_state self.old) (mem_state self.new) result }
    {
        if self.starts.count() || self.room_of(name).is_none() {
            return Err(self.write_failed(Call::Start, name));
        }
        MemShelf::make_empty(&mut self.slots, name);
        Ok(())
    }

    fn append(&mut self, name: &str, bytes: &[u8]) -> Result<(), Failed>
        ensures kept { Touches name.now (shelf_state self.old) (shelf_state self.new) }
        ensures ok { OnOk result (Appends name.now bytes.now
            (shelf_state self.old) (shelf_state self.new)) }
        ensures err { OnErr result (FailsToAppend name.now bytes.now
            (shelf_state self.old) (shelf_state self.new)) }
        ensures memory { AppendsInMemory name.now bytes.now
            (mem_state self.old) (mem_state self.new) result }
    {
        if self.appends.count() || !self.can_append(name, bytes.len()) {
            return Err(self.write_failed(Call::Append, name));
        }
        MemShelf::add(&mut self.slots, name, bytes);
        Ok(())
    }
}
