//! Ports in memory, bit by bit and many bits at a time.

ghost use Rattle.std.specs.Prelude.{◌≡◌, ◌<◌, ◌≤◌, ◌^◌, IfOk};
ghost use Rattle.pdh_packed.specs.Words.{low_bits};

use pdh_edge::{Drain, Failed, Feed, FeedStop, MemPort, Port};
use pdh_packed::{Packed, Word};
use std::alloc::{AllocError, Global};
use std::test::Fail;

/// A list of the low bits of a number that has no higher ones, so many, with room for no more.
fn list_of(alloc: Global, number: u64, count: u32) -> Result<Packed, AllocError>
    requires few { count ≤ 64 }
    requires small { number < 2 ^ count }
    ensures { IfOk result (λ list. list ≡ record { capacity = count; bits = low_bits count number }) }
{
    let mut list = Packed::open(alloc, count as usize)?;
    list.append(Word::of(number, count));
    Ok(list)
}

#[test]
fn port_in_memory(rt: HostRuntime) -> Result<(), Fail> {
    let alloc = rt.alloc();
    let mut lists = Vec::new(alloc);
    lists.push(list_of(alloc, 0b10, 2)?)?;
    let mut port = MemPort::open(alloc, lists, 2)?;
    port.room(1, 2)?;
    assert!(rt; port.start() == Ok(()));
    assert!(rt; port.bit(0) == Ok(true));
    assert!(rt; port.put(1, true) == Ok(()));
    assert!(rt; port.bit(0) == Ok(false));
    assert!(rt; port.put(1, false) == Ok(()));
    assert!(rt; port.bit(0) == Err(FeedStop::Ended));
    assert!(rt; port.put(0, true) == Err(Failed));
    assert!(rt; port.output(0).len() == 0);
    let output = port.output(1);
    assert!(rt; output.len() == 2);
    assert!(rt; output.read(0, 2).number() == 0b10);
    assert!(rt; (port.feed_faults(), port.drain_faults()) == (0, 1));
    Ok(())
}

#[test]
fn many_bits_are_given(rt: HostRuntime) -> Result<(), Fail> {
    let alloc = rt.alloc();
    let mut lists = Vec::new(alloc);
    lists.push(list_of(alloc, 0b101, 3)?)?;
    let mut port = MemPort::open(alloc, lists, 0)?;
    let mut buffer = Packed::open(alloc, 4)?;
    assert!(rt; port.left(0) == 3);
    assert!(rt; port.bits(0, 2, &mut buffer) == Ok(2));
    assert!(rt; (port.left(0), buffer.len(), buffer.capacity()) == (1, 2, 4));
    assert!(rt; port.bits(0, 2, &mut buffer) == Ok(1));
    assert!(rt; (buffer.len(), buffer.capacity()) == (3, 4));
    assert!(rt; buffer.read(0, 3).number() == 0b101);
    assert!(rt; port.bits(0, 1, &mut buffer) == Err(FeedStop::Ended));
    Ok(())
}

#[test]
fn many_bits_are_put(rt: HostRuntime) -> Result<(), Fail> {
    let alloc = rt.alloc();
    let mut port = MemPort::open(alloc, Vec::new(alloc), 2)?;
    let three = list_of(alloc, 0b110, 3)?;
    let two = list_of(alloc, 0b10, 2)?;
    port.room(0, 4)?;
    assert!(rt; port.put_all(0, &three) == Ok(()));
    assert!(rt; port.put_all(0, &two) == Err(Failed));
    assert!(rt; port.put_all(1, &two) == Err(Failed));
    assert!(rt; port.output(1).len() == 0);
    let output = port.output(0);
    assert!(rt; output.len() == 4);
    assert!(rt; output.read(0, 4).number() == 0b1101);
    assert!(rt; port.drain_faults() == 2);
    Ok(())
}

#[test]
fn bits_are_put_in_room(rt: HostRuntime) -> Result<(), Fail> {
    let alloc = rt.alloc();
    let mut port = MemPort::open(alloc, Vec::new(alloc), 1)?;
    let three = list_of(alloc, 0b110, 3)?;
    assert!(rt; !port.has_room(0, three.len()));
    port.room(0, 4)?;
    assert!(rt; port.has_room(0, three.len()));
    port.put_in_room(0, &three);
    assert!(rt; (port.has_room(0, 1), port.has_room(0, 2)) == (true, false));
    let output = port.output(0);
    assert!(rt; output.len() == 3);
    assert!(rt; output.read(0, 3).number() == 0b110);
    Ok(())
}
