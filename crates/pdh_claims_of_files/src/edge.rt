//! Claims on `pdh_edge`.

ghost use Rattle.std.specs.Prelude.{◌≡◌, ◌+◌, ◌<◌, ◌≤◌, true, false, None, Some, [], ◌∷◌, length, IsTrue, IsErr, IsOk, IfOk, OnOk, OnErr};
ghost use Rattle.pdh_edge.specs.declared.shelf.Call.TheVariants.{Size};
ghost use Rattle.pdh_edge.specs.Files.Told.{Untold};
ghost use Rattle.pdh_edge.specs.MemFiles.{mem_state};
ghost use Rattle.pdh_edge.specs.MemLists.{bits_held, room_of};
ghost use Rattle.pdh_edge.specs.NeverFails.{shelf_state};

use pdh_edge::{
    Drain, Failed, Feed, MemPort, MemShelf, MemSink, NeverFails, Shelf, Sink, take_bits,
};
use pdh_packed::Packed;
use std::alloc::{AllocError, Global};

/// All bytes that are appended to an empty file stand in it.
pub fn append_drops_byte(shelf: &mut MemShelf, name: &str, bytes: &[u8]) -> Result<(), Failed>
    requires { ((mem_state shelf.old).files name.now).held ≡ Some [] }
    ensures { OnOk result (((mem_state shelf.new).files name.now).held ≡ Some bytes.now) }
{
    shelf.append(name, bytes)
}

/// An empty list to which bits are put has these bits.
pub fn default_puts_other_bits<D: Drain>(drain: &mut D, bits: &Packed) -> Result<(), Failed>
    requires held { IsTrue ((D.outputs drain.old).holds 0) }
    requires empty { (D.outputs drain.old).told 0 ≡ Some [] }
    ensures { OnOk result ((D.outputs drain.new).told 0 ≡ Some bits.now.bits) }
{
    drain.put_all(0, bits)
}

/// A drain that tells what one of its lists holds isn't deaf.
pub fn deaf_though_it_tells<D: Drain>(drain: &D) -> bool
    requires { (D.outputs drain.now).told 0 ≡ Some [] }
    ensures { result ≡ false }
{
    drain.is_deaf()
}

/// A put that fails is counted once.
pub fn failed_put_counted_twice(port: &mut MemPort, bits: &Packed) -> Result<(), Failed>
    requires held { IsTrue ((⟦<MemPort as Drain>⟧.outputs port.old).holds 0) }
    requires none { ⟦<MemPort as Drain>⟧.drain_faults port.old ≡ 0 }
    ensures { OnErr result (⟦<MemPort as Drain>⟧.drain_faults port.new ≡ 1) }
{
    port.put_all(0, bits)
}

/// A list that refuses a bit keeps its own.
pub fn failed_put_empties_the_list(port: &mut MemPort, bit: bool) -> Result<(), Failed>
    requires { IsTrue ((⟦<MemPort as Drain>⟧.outputs port.old).holds 0) }
    ensures { OnErr result ((⟦<MemPort as Drain>⟧.outputs port.new).told 0
        ≡ (⟦<MemPort as Drain>⟧.outputs port.old).told 0) }
{
    port.put(0, bit)
}

/// Of a size that fails it is told that a size failed, and of which file.
pub fn failed_size_told_as_read(shelf: &mut MemShelf, name: &str) -> Result<Option<u64>, Failed>
    requires { length name.now ≤ 32 }
    ensures { OnErr result ((mem_state shelf.new).last_failed ≡ Some (record { call = Size; name = name.now })) }
{
    shelf.size(name)
}

/// A write that is planned to fail fails.
pub fn plan_forgotten(alloc: Global) -> Result<bool, AllocError>
    ensures { IfOk result (λ failed. failed ≡ true) }
{
    let mut sink = MemSink::open(alloc, 1)?;
    sink.fail(0)?;
    let failed = sink.write(b"a").is_err();
    Ok(failed)
}

/// A list with room for a bit takes one.
pub fn put_refused_though_there_is_room(port: &mut MemPort, bit: bool) -> Result<(), Failed>
    requires held { IsTrue ((⟦<MemPort as Drain>⟧.outputs port.old).holds 0) }
    requires room { bits_held (⟦<MemPort as Drain>⟧.outputs port.old) 0 < room_of port.old 0 }
    ensures { IsOk result }
{
    port.put(0, bit)
}

/// A size that fails is counted.
pub fn read_fault_not_counted(shelf: &mut MemShelf, name: &str) -> Result<Option<u64>, Failed>
    requires { (mem_state shelf.old).counts.read_faults ≡ 0 }
    ensures { OnErr result ((mem_state shelf.new).counts.read_faults ≡ 1) }
{
    shelf.size(name)
}

/// The byte at place 1 of a file of two bytes is the second.
pub fn read_from_beginning(shelf: &mut MemShelf, name: &str, into: &mut [u8]) -> Result<(), Failed>
    requires two { ((mem_state shelf.old).files name.now).held ≡ Some (3 ∷ 5 ∷ []) }
    requires one { length into.old ≡ 1 }
    ensures { OnOk result (into.new ≡ 5 ∷ []) }
{
    shelf.read_at(name, 1, into)
}

/// A byte that is written is counted.
pub fn sink_counts_nothing(sink: &mut NeverFails, bytes: &[u8]) -> u64
    requires none { sink.old.taken ≡ 0 }
    requires one { length bytes.now ≡ 1 }
    ensures { result ≡ 1 }
{
    let _ = Sink::write(sink, bytes);
    sink.taken()
}

/// A file for which no room was made isn't started.
pub fn start_without_room(shelf: &mut MemShelf, name: &str) -> Result<(), Failed>
    requires { ((mem_state shelf.old).files name.now).room ≡ None }
    ensures { IsErr result }
{
    shelf.start(name)
}

/// A list of which one bit is taken has one fewer.
pub fn takes_one_bit_fewer<F: Feed>(feed: &mut F, into: &mut Packed) -> Result<(), Failed>
    requires held { IsTrue ((F.inputs feed.old).holds 0) }
    requires enough { 1 ≤ (F.inputs feed.old).left 0 }
    requires room { length into.old.bits < into.old.capacity }
    ensures { OnOk result ((F.inputs feed.old).left 0 ≡ 1 + (F.inputs feed.new).left 0) }
{
    take_bits(feed, 0, 1, into)
}

/// Of a file that is started nothing is told any more.
pub fn written_input_told_still(shelf: &mut NeverFails, name: &str) -> Result<(), Failed>
    ensures { OnOk result ((shelf_state shelf.new).told name.now ≡ Untold) }
{
    shelf.start(name)
}
