//! Ports over a real folder: lists longer than a block, and files that are short or gone.

ghost use Rattle.std.specs.Prelude.{◌≡◌, ◌<◌, ◌≤◌, length, IfOk};

use pdh_blocks::{ShelfPort, Source};
use pdh_edge::{Drain, Failed, Feed, FeedStop, Port, Shelf};
use pdh_folder::Folder;
use pdh_packed::Packed;
use std::alloc::{AllocError, Global};
use std::fs;
use std::process::Abort;
use std::rt::Files;
use std::test::Fail;

// So many bytes, of which neighbours differ.
fn pattern(alloc: Global, count: usize) -> Result<Vec<u8>, AllocError> {
    let mut bytes = Vec::with_capacity(alloc, count)?;
    let mut byte = 0u8;
    for _place in 0..count {
        bytes.push(byte)?;
        byte = if byte == 250 { 0 } else { byte.wrapping_add(1) };
    }
    Ok(bytes)
}

// A port of two leaves and two outputs.
#[derive(Drop)]
struct TwoByTwo<S: Shelf> {
    port: ShelfPort<S>,
    ghost leaves: { length port.blocks.leaves.items ≡ 2 },
    ghost outputs: { length port.blocks.outputs.items ≡ 2 },
}

impl<S: Shelf> TwoByTwo<S> {
    // Starts the outputs.
    fn start(&mut self) -> Result<(), Failed>
        requires { ⟦<ShelfPort<S> as Port>⟧.fresh self.old.port }
    {
        self.port.start()
    }

    // Takes bits of a leaf, where there is room for so many.
    fn give(&mut self, leaf: u32, most: usize, into: &mut Packed) -> Result<usize, FeedStop>
        requires { leaf < 2 }
    {
        let room = into.capacity() - into.len();
        if most == 0 || room < most {
            return Err(FeedStop::Ended);
        }
        self.port.bits(leaf, most, into)
    }

    // Whether an output has room for so many bits.
    fn has_room(&self, leaf: u32, bits: usize) -> bool
        requires { leaf < 2 }
    {
        self.port.has_room(leaf, bits)
    }

    // Puts so many bytes to an output, and answers whether that went well.
    fn put_bytes(&mut self, alloc: Global, leaf: u32, count: usize) -> Result<bool, AllocError>
        requires { leaf < 2 }
    {
        let bits = Packed::of_bytes(alloc, &pattern(alloc, count)?)?;
        Ok(self.port.put_all(leaf, &bits).is_ok())
    }

    // Appends what waits for the outputs.
    fn finish(&mut self) -> Result<(), Failed> {
        self.port.finish()
    }
}

// A fresh one over a folder, with so many bits of each leaf, and the second output of this name.
fn open<R: Files + Drop>(
    alloc: Global,
    folder: Folder<R>,
    bits: u64,
    second: &str,
) -> Result<TwoByTwo<Folder<R>>, AllocError>
    requires { 7 ≤ length second.now }
    ensures { IfOk result (λ two. ⟦<ShelfPort<Folder<R>> as Port>⟧.fresh two.port) }
{
    let one = String::from_str(alloc, "pb_1")?;
    let two = String::from_str(alloc, "pb_22")?;
    let three = String::from_str(alloc, "pb_333")?;
    let four = String::from_str(alloc, second)?;
    let reads = [Source { name: one, bits }, Source { name: two, bits }];
    let writes = [three, four];
    match ShelfPort::open(alloc, folder, &reads, &writes) {
        Ok(port) => Ok(TwoByTwo { port }),
        Err(_) => Err(AllocError),
    }
}

// Writes a file anew.
fn write_file<R: Files + Drop>(rt: &impl Abort, folder: &mut Folder<R>, name: &str, bytes: &[u8]) {
    assert!(rt; folder.start(name) == Ok(()));
    assert!(rt; folder.append(name, bytes) == Ok(()));
}

// Looks how many bytes a file has, if it is there.
fn has_size<R: Files + Drop>(
    rt: &impl Abort,
    folder: &mut Folder<R>,
    name: &str,
    size: Option<u64>,
) {
    assert!(rt; folder.size(name) == Ok(size));
}

// Takes all bits of leaf 0, past the border of its first block.
fn take_whole_leaf<S: Shelf>(rt: &impl Abort, two: &mut TwoByTwo<S>, got: &mut Packed) {
    assert!(rt; two.give(0, 30000, got) == Ok(30000));
    assert!(rt; two.give(0, 10000, got) == Ok(2768));
    assert!(rt; two.give(0, 10000, got) == Ok(7232));
    assert!(rt; two.give(0, 1, got) == Err(FeedStop::Ended));
    assert!(rt; (two.port.feed_faults(), two.port.failed_name()) == (0, None));
}

// Takes the bits of leaf 1, whose file is too short for its last block.
fn take_short_leaf<S: Shelf>(rt: &impl Abort, two: &mut TwoByTwo<S>, got: &mut Packed) {
    got.clear();
    assert!(rt; two.give(1, 40000, got) == Ok(32768));
    assert!(rt; two.give(1, 1, got) == Err(FeedStop::Failed));
    assert!(rt; got.len() == 32768);
    assert!(rt; (two.port.feed_faults(), two.port.failed_name()) == (1, Some(1)));
}

#[test]
fn leaves_over_borders(rt: HostRuntime) -> Result<(), Fail> {
    let alloc = rt.alloc();
    let bytes = pattern(alloc, 5000)?;
    let short = pattern(alloc, 4999)?;
    let mut folder = Folder::new(rt.alloc(), rt.clone()?);
    write_file(&rt, &mut folder, "pb_1", &bytes);
    write_file(&rt, &mut folder, "pb_22", &short);
    let mut two = open(alloc, folder, 40000, "pb_4444")?;
    let mut got = Packed::open(alloc, 80000)?;
    take_whole_leaf(&rt, &mut two, &mut got);
    assert!(rt; got.to_bytes(alloc)? == bytes);
    take_short_leaf(&rt, &mut two, &mut got);
    assert!(rt; two.port.close().read_faults() == 1);
    fs::remove_file(&rt, "pb_1")?;
    fs::remove_file(&rt, "pb_22")?;
    Ok(())
}

// Puts to output 1 one byte less than a block has.
fn put_nearly_a_block<S: Shelf>(
    rt: &impl Abort,
    alloc: Global,
    two: &mut TwoByTwo<S>,
) -> Result<(), AllocError> {
    assert!(rt; (two.has_room(1, 32767), two.has_room(1, 32768)) == (true, false));
    assert!(rt; two.put_bytes(alloc, 1, 4095)?);
    assert!(rt; (two.has_room(1, 7), two.has_room(1, 8)) == (true, false));
    Ok(())
}

#[test]
fn outputs_by_blocks(rt: HostRuntime) -> Result<(), Fail> {
    let alloc = rt.alloc();
    let mut folder = Folder::new(rt.alloc(), rt.clone()?);
    let mut two = open(alloc, Folder::new(rt.alloc(), rt.clone()?), 0, "pb_4444")?;
    // put before start: the first full block starts all outputs
    put_nearly_a_block(&rt, alloc, &mut two)?;
    has_size(&rt, &mut folder, "pb_4444", None);
    assert!(rt; two.put_bytes(alloc, 1, 2)?);
    has_size(&rt, &mut folder, "pb_4444", Some(4096));
    has_size(&rt, &mut folder, "pb_333", Some(0));
    assert!(rt; two.finish() == Ok(()));
    has_size(&rt, &mut folder, "pb_4444", Some(4097));
    let mut last = [7; 2];
    assert!(rt; folder.read_at("pb_4444", 4095, &mut last) == Ok(()));
    assert!(rt; last == [0, 1]);
    assert!(rt; two.port.failed_name().is_none());
    fs::remove_file(&rt, "pb_333")?;
    fs::remove_file(&rt, "pb_4444")?;
    Ok(())
}

// A folder keeps no file of so long a name open, so that it has to be there still.
const LONG: &str = "pb_4444_of_a_name_that_does_not_stay_open";

#[test]
fn append_to_a_file_that_is_gone(rt: HostRuntime) -> Result<(), Fail> {
    let alloc = rt.alloc();
    let mut two = open(alloc, Folder::new(rt.alloc(), rt.clone()?), 0, LONG)?;
    assert!(rt; two.start() == Ok(()));
    fs::remove_file(&rt, LONG)?;
    assert!(rt; two.put_bytes(alloc, 1, 4095)?);
    assert!(rt; !two.put_bytes(alloc, 1, 2)?);
    assert!(rt; (two.port.drain_faults(), two.port.failed_name()) == (1, Some(3)));
    assert!(rt; two.port.close().write_faults() == 1);
    fs::remove_file(&rt, "pb_333")?;
    Ok(())
}

#[test]
fn start_makes_files_empty(rt: HostRuntime) -> Result<(), Fail> {
    let mut folder = Folder::new(rt.alloc(), rt.clone()?);
    write_file(&rt, &mut folder, "pb_333", b"ab");
    write_file(&rt, &mut folder, "pb_4444", b"ab");
    let mut two = open(
        rt.alloc(),
        Folder::new(rt.alloc(), rt.clone()?),
        0,
        "pb_4444",
    )?;
    assert!(rt; two.start() == Ok(()));
    has_size(&rt, &mut folder, "pb_333", Some(0));
    has_size(&rt, &mut folder, "pb_4444", Some(0));
    fs::remove_file(&rt, "pb_333")?;
    fs::remove_file(&rt, "pb_4444")?;
    Ok(())
}
