//! Worked lines: what the leaves of a demultiplexer get, and its events.

ghost use Rattle.std.specs.Prelude.{◌≡◌, Bool, List, [], map, IfOk};
ghost use Rattle.pdh_eframes.specs.Plans.{e2};
ghost use Rattle.pdh_rx.specs.Meaning.{HoldsAll};
ghost use Rattle.pdh_tests_of_receivers.specs.FourTails.{four_tails, HoldsFour};
ghost use Rattle.pdh_rx.specs.Node.{node_meaning};

use pdh_edge::{Drain, Failed, MemPort};
use pdh_eframes::E2;
use pdh_judging::Judged;
use pdh_packed::Packed;
use pdh_runs::Layout;
use pdh_rx::{NodeCounts, Rx, RxNode, Tail, take_watched};
use pdh_shape::TOP;
use pdh_watch::{Event, Kind, Quiet, Watch};
use std::alloc::{AllocError, Global};
use std::rc::Rc;
use std::test::Fail;

// The leaves 0 to 3.
fn tails(alloc: Global) -> Result<Vec<Tail>, AllocError>
    ensures { IfOk result (λ tails. map ⟦<Tail as Rx>⟧.meaning tails.items ≡ four_tails) }
{
    Ok(vec![in alloc; Tail::new(0), Tail::new(1), Tail::new(2), Tail::new(3)]?)
}

// A demultiplexer of the leaves 0 to 3.
fn node(alloc: Global) -> Result<RxNode<E2, Tail>, AllocError>
    ensures meaning { IfOk result (λ node. ⟦<RxNode<E2, Tail> as Rx>⟧.meaning node
        ≡ node_meaning e2 (record { depth = 0; first = 0; second = 0 }) four_tails) }
    ensures stands { IfOk result (λ node. ⟦<RxNode<E2, Tail> as Rx>⟧.stands node []) }
{
    let layout = Rc::new(alloc, Layout::open(alloc)?)?;
    RxNode::open(alloc, TOP, layout, tails(alloc)?)
}

// A port of the lists 0 to 3, each with room for so many bits.
fn port_with_rooms(alloc: Global, rooms: [usize; 4]) -> Result<MemPort, AllocError>
    ensures { IfOk result (λ port. HoldsFour (⟦<MemPort as Drain>⟧.outputs port)) }
{
    let mut port = MemPort::open(alloc, Vec::new(alloc), 4)?;
    for leaf in 0..4 {
        port.room(leaf, rooms[leaf as usize])?;
    }
    Ok(port)
}

// Adds so many bits of one value.
fn add_bits(bits: &mut Vec<bool>, count: usize, bit: bool) -> Result<(), AllocError> {
    for _added in 0..count {
        bits.push(bit)?;
    }
    Ok(())
}

// Adds a frame of 106 bytes: its first byte, 0x10 and zeros.
fn add_frame(bits: &mut Vec<bool>, first: u8) -> Result<(), AllocError> {
    for place in 0..848u32 {
        let byte = match place / 8 {
            0 => first,
            1 => 0x10,
            _ => 0,
        };
        bits.push((byte >> (7 - place % 8)) & 1 == 1)?;
    }
    Ok(())
}

// A line of so many zeros and then frames, by the first byte of each.
fn line(alloc: Global, zeros: usize, frames: &[u8]) -> Result<Vec<bool>, AllocError> {
    let mut bits = Vec::new(alloc);
    add_bits(&mut bits, zeros, false)?;
    for first in frames {
        add_frame(&mut bits, *first)?;
    }
    Ok(bits)
}

// So many zeros, then so many ones, and then so many zeros.
fn zeros_ones_zeros(alloc: Global, counts: [usize; 3]) -> Result<Vec<bool>, AllocError> {
    let mut bits = Vec::new(alloc);
    add_bits(&mut bits, counts[0], false)?;
    add_bits(&mut bits, counts[1], true)?;
    add_bits(&mut bits, counts[2], false)?;
    Ok(bits)
}

// Takes the bits of a line one by one.
fn receive<R: Rx, D: Drain, W: Watch>(
    rx: &mut R,
    bits: &[bool],
    drain: &mut D,
    watch: &mut W,
) -> Result<(), Failed>
    requires stands { (line : List Bool) × R.stands rx.old line }
    requires lists { HoldsAll (R.meaning rx.old).leaves (D.outputs drain.old) }
    ensures { (D.outputs drain.new).holds ≡ (D.outputs drain.old).holds }
{
    for bit in bits {
        rx.push(*bit, drain, watch)?;
    }
    Ok(())
}

// These bits, packed.
fn packed(alloc: Global, bits: &[bool]) -> Result<Packed, AllocError> {
    let mut packed = Packed::open(alloc, bits.len())?;
    for bit in bits {
        packed.push(*bit);
    }
    Ok(packed)
}

// Whether these are the bits that are packed.
fn are_packed(bits: &[bool], packed: &Packed) -> bool {
    if packed.len() != bits.len() {
        return false;
    }
    for (place, bit) in bits.iter().enumerate() {
        if packed.get(place) != *bit {
            return false;
        }
    }
    true
}

// Whether each of the leaves 0 to 3 got these bits.
fn each_got(port: &MemPort, bits: &[bool]) -> bool
    requires { HoldsFour (⟦<MemPort as Drain>⟧.outputs port.now) }
{
    for leaf in 0..4 {
        if !are_packed(bits, port.output(leaf)) {
            return false;
        }
    }
    true
}

// Whether each leaf gets these bits of a line, and how many frames are delivered.
fn run(alloc: Global, line: &[bool], bits: &[bool]) -> Result<(bool, u64), Fail> {
    let mut node = node(alloc)?;
    let mut port = port_with_rooms(alloc, [line.len(); 4])?;
    receive(&mut node, line, &mut port, &mut Quiet)?;
    Ok((each_got(&port, bits), node.frames()))
}

// The same where the node takes all bits of the line in one call.
fn run_at_once(alloc: Global, line: &[bool], bits: &[bool]) -> Result<(bool, u64), Fail> {
    let mut node = node(alloc)?;
    let mut port = port_with_rooms(alloc, [line.len(); 4])?;
    let line = packed(alloc, line)?;
    take_watched(&mut node, &line, &mut port, &mut Quiet)?;
    Ok((each_got(&port, bits), node.frames()))
}

// A frame whose first byte is 0xF4 is right; 4 is a wrong one.
#[test]
fn lines_and_leaves(rt: HostRuntime) -> Result<(), Fail> {
    let alloc = rt.alloc();
    let three: &[u8] = &[0xF4, 0xF4, 0xF4];
    let two: &[u8] = &[0xF4, 0xF4];
    let lost: &[u8] = &[0xF4, 0xF4, 0xF4, 4, 4, 4, 4, 0xF4, 0xF4, 0xF4, 0xF4, 0xF4];
    let none: &[u8] = &[];
    let cases = [
        (848, three, [0, 205, 618], 3),
        (0, two, [0, 0, 0], 0),
        (0, lost, [1236, 205, 1030], 11),
        (8480, none, [0, 1435, 0], 0),
    ];
    for (zeros, frames, counts, delivered) in cases {
        let line = line(alloc, zeros, frames)?;
        let bits = zeros_ones_zeros(alloc, counts)?;
        assert!(rt; run(alloc, &line, &bits)? == (true, delivered));
        assert!(rt; run_at_once(alloc, &line, &bits)? == (true, delivered));
    }
    Ok(())
}

// What the nodes count where a node takes all bits of a line in one call.
fn counted(alloc: Global, line: &[bool]) -> Result<Vec<NodeCounts>, Fail> {
    let mut node = node(alloc)?;
    let mut port = port_with_rooms(alloc, [line.len(); 4])?;
    let line = packed(alloc, line)?;
    take_watched(&mut node, &line, &mut port, &mut Quiet)?;
    let mut counts = Vec::new(alloc);
    node.count_nodes(&mut counts)?;
    Ok(counts)
}

// The counts of a node at the top, by its bits, its frames, those that were judged, and the right ones of them.
fn at_the_top(bits: u64, frames: u64, judged: u64, right: u64) -> NodeCounts {
    NodeCounts {
        path: TOP,
        bits,
        frames,
        judged: Judged {
            frames: judged,
            right,
        },
    }
}

// The three frames that confirm an alignment aren't judged. Of those behind them the four wrong ones are, the last of which
// completes the loss, and the two right ones behind the second alignment.
#[test]
fn frames_behind_the_first_three_are_judged(rt: HostRuntime) -> Result<(), Fail> {
    let alloc = rt.alloc();
    let frames: &[u8] = &[0xF4, 0xF4, 0xF4, 4, 4, 4, 4, 0xF4, 0xF4, 0xF4, 0xF4, 0xF4];
    let line = line(alloc, 0, frames)?;
    let all = at_the_top(10_176, 11, 6, 2);
    assert!(rt; counted(alloc, &line)?.as_slice() == [all].as_slice());
    Ok(())
}

// Frames with one wrong alignment bit each, of which no four come in a row: all are delivered, and none of these is right.
#[test]
fn frames_with_single_wrong_alignment_bits_are_not_right(rt: HostRuntime) -> Result<(), Fail> {
    let alloc = rt.alloc();
    let one: &[u8] = &[0xF4, 0xF4, 0xF4, 0xF4, 0x74, 0xF4];
    let last: &[u8] = &[0xF4, 0xF4, 0xF4, 0xF5];
    let three: &[u8] = &[0xF4, 0xF4, 0xF4, 0xB4, 0xD4, 0xE4, 0xF4, 0xF0];
    let cases = [
        (0, one, at_the_top(5088, 6, 3, 2)),
        (100, last, at_the_top(3492, 4, 1, 0)),
        (0, three, at_the_top(6784, 8, 5, 1)),
    ];
    for (zeros, frames, all) in cases {
        let line = line(alloc, zeros, frames)?;
        assert!(rt; counted(alloc, &line)?.as_slice() == [all].as_slice());
    }
    Ok(())
}

// How many bits each of the leaves 0 to 3 has got.
fn counts(port: &MemPort) -> [usize; 4]
    requires { HoldsFour (⟦<MemPort as Drain>⟧.outputs port.now) }
{
    [
        port.output(0).len(),
        port.output(1).len(),
        port.output(2).len(),
        port.output(3).len(),
    ]
}

// How many bits each leaf has got of a line, and whether a put failed, where the lists have room for so many.
fn run_in_room(
    alloc: Global,
    line: &[bool],
    rooms: [usize; 4],
) -> Result<([usize; 4], bool), Fail> {
    let mut node = node(alloc)?;
    let mut port = port_with_rooms(alloc, rooms)?;
    let failed = receive(&mut node, line, &mut port, &mut Quiet).is_err();
    Ok((counts(&port), failed))
}

// The same where the node takes all bits of the line in one call.
fn run_in_room_at_once(
    alloc: Global,
    line: &[bool],
    rooms: [usize; 4],
) -> Result<([usize; 4], bool), Fail> {
    let mut node = node(alloc)?;
    let mut port = port_with_rooms(alloc, rooms)?;
    let line = packed(alloc, line)?;
    let failed = take_watched(&mut node, &line, &mut port, &mut Quiet).is_err();
    Ok((counts(&port), failed))
}

// The ones of a gap go to the leaves in rounds, one bit to each in turn: a leaf before the one whose list is full has got
// one more, and one behind it as many.
#[test]
fn ones_of_a_gap_go_in_rounds(rt: HostRuntime) -> Result<(), Fail> {
    let alloc = rt.alloc();
    let line = line(alloc, 8480, &[])?;
    let last_full = run_in_room(alloc, &line, [2000, 2000, 2000, 300])?;
    assert!(rt; last_full == ([301, 301, 301, 300], true));
    let second_full = run_in_room(alloc, &line, [2000, 300, 2000, 2000])?;
    assert!(rt; second_full == ([301, 300, 300, 300], true));
    let at_once = run_in_room_at_once(alloc, &line, [2000, 2000, 2000, 300])?;
    assert!(rt; at_once == ([301, 301, 301, 300], true));
    Ok(())
}

// Keeps the kinds and the bits of the first four events.
#[derive(Drop)]
struct Recorder {
    seen: [Option<(Kind, u64)>; 4],
    count: usize,
}

impl Watch for Recorder {
    ghost saw = { λ a events b. Unit {0} };

    ghost saw_nothing = { λ a. tt };

    ghost saw_join = { λ a b c xs ys p q. tt };

    fn note(&mut self, event: &Event) {
        if self.count < 4 {
            self.seen[self.count] = Some((event.kind, event.bit));
            self.count += 1;
        }
    }
}

// The kinds and the bits of the first four events of a line.
fn events_of(alloc: Global, line: &[bool]) -> Result<[Option<(Kind, u64)>; 4], Fail> {
    let mut node = node(alloc)?;
    let mut port = port_with_rooms(alloc, [line.len(); 4])?;
    let mut recorder = Recorder {
        seen: [None; 4],
        count: 0,
    };
    receive(&mut node, line, &mut port, &mut recorder)?;
    Ok(recorder.seen)
}

// Three right frames are an alignment at the last bit of the third, and four wrong ones lose it at the last bit of the
// fourth. A frame's length of ones is AIS at its last bit, up to the first 0. Bits are counted from 0.
#[test]
fn events_and_their_bits(rt: HostRuntime) -> Result<(), Fail> {
    let alloc = rt.alloc();
    let lost = line(alloc, 0, &[0xF4, 0xF4, 0xF4, 4, 4, 4, 4, 0xF4, 0xF4, 0xF4])?;
    let aligned_twice = [
        Some((Kind::ALIGNED, 2543)),
        Some((Kind::LOST, 5935)),
        Some((Kind::ALIGNED, 8479)),
        None,
    ];
    assert!(rt; events_of(alloc, &lost)? == aligned_twice);
    let ones = zeros_ones_zeros(alloc, [10, 900, 10])?;
    let ais_once = [
        Some((Kind::AIS_ON, 857)),
        Some((Kind::AIS_OFF, 910)),
        None,
        None,
    ];
    assert!(rt; events_of(alloc, &ones)? == ais_once);
    Ok(())
}
