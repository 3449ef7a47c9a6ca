//! Desynchronisers: what comes out of them, and their marks, alone and below a demultiplexer.

ghost use Rattle.std.specs.Prelude.{◌≡◌, ◌<◌, [], map, IfOk};
ghost use Rattle.pdh_eframes.specs.Plans.{e2, e3};
ghost use Rattle.pdh_rx.specs.Node.{EachStands, node_meaning};
ghost use Rattle.pdh_desync.specs.Smooth.{smooth_meaning};
ghost use Rattle.pdh_tests_of_desync.specs.FourSmooth.{four_smooth, HoldsEach};

use pdh_desync::SmoothNode;
use pdh_edge::{Drain, MemPort};
use pdh_eframes::{E2, E3};
use pdh_packed::Packed;
use pdh_runs::Layout;
use pdh_rx::{Rx, RxNode, take_watched};
use pdh_shape::{Path, TOP};
use pdh_watch::Quiet;
use std::alloc::{AllocError, Global};
use std::rc::Rc;
use std::test::Fail;

// A bit of a list, or 0 behind its end.
fn bit_of(list: &[bool], place: usize) -> bool {
    if place < list.len() {
        list[place]
    } else {
        false
    }
}

// Adds a bit of each list in turn, so many times, from a place on.
fn add_turns(
    line: &mut Vec<bool>,
    lists: &[Vec<bool>],
    from: usize,
    turns: usize,
) -> Result<(), AllocError> {
    for turn in 0..turns {
        for list in lists {
            line.push(bit_of(list, from.saturating_add(turn)))?;
        }
    }
    Ok(())
}

// Adds a frame of four tributaries with three sets of control bits, all 0, by which it carries an additional bit of each: behind
// its signal so many turns of the tributaries, and behind each set so many (G.742, Table 1, and G.751).
fn add_frame(
    line: &mut Vec<bool>,
    lists: &[Vec<bool>],
    from: usize,
    first: usize,
    between: usize,
) -> Result<(), AllocError> {
    for bit in [
        true, true, true, true, false, true, false, false, false, false, false, true,
    ] {
        line.push(bit)?;
    }
    add_turns(line, lists, from, first)?;
    let mut at = from.saturating_add(first);
    for _set in 0..3u8 {
        for _control in 0..4u8 {
            line.push(false)?;
        }
        add_turns(line, lists, at, between)?;
        at = at.saturating_add(between);
    }
    Ok(())
}

// The bits of a tributary of the second order, by its number from 0: those of a third of the frames are ones, or all are zeros.
fn tributary(alloc: Global, number: usize, ones: bool) -> Result<Vec<bool>, AllocError>
    requires { number < 16 }
{
    let mut bits = Vec::new(alloc);
    for frame in 0..9usize {
        for _bit in 0..206u8 {
            bits.push(ones && (frame + number) % 3 == 0)?;
        }
    }
    Ok(bits)
}

// Nine frames of the second order, of four tributaries from a number on.
fn second_order(alloc: Global, number: usize, ones: bool) -> Result<Vec<bool>, AllocError>
    requires { number < 13 }
{
    let lists = vec![in alloc;
        tributary(alloc, number, ones)?,
        tributary(alloc, number + 1, ones)?,
        tributary(alloc, number + 2, ones)?,
        tributary(alloc, number + 3, ones)?,
    ]?;
    let mut line = Vec::new(alloc);
    for frame in 0..9usize {
        add_frame(&mut line, &lists, 206 * frame, 50, 52)?;
    }
    Ok(line)
}

// Twenty frames of the third order, of four lines of the second: a chain's line with such tributaries.
fn third_order(alloc: Global, ones: bool) -> Result<Vec<bool>, AllocError> {
    let lists = vec![in alloc;
        second_order(alloc, 0, ones)?,
        second_order(alloc, 4, ones)?,
        second_order(alloc, 8, ones)?,
        second_order(alloc, 12, ones)?,
    ]?;
    let mut line = Vec::new(alloc);
    for frame in 0..20usize {
        add_frame(&mut line, &lists, 378 * frame, 93, 95)?;
    }
    Ok(line)
}

// The place of a tributary of the top, by its number from 1.
fn below(number: u8) -> Path
    ensures { result ≡ record { depth = 1; first = number; second = 0 } }
{
    Path {
        depth: 1,
        first: number,
        second: 0,
    }
}

// A desynchroniser for each tributary of the top, which put to the leaves 0 to 15, and their marks to those from 16 on.
fn children(alloc: Global) -> Result<Vec<SmoothNode<E2>>, AllocError>
    ensures meaning { IfOk result (λ nodes. map ⟦<SmoothNode<E2> as Rx>⟧.meaning nodes.items ≡ four_smooth) }
    ensures stands { IfOk result (λ nodes. EachStands ⟦<SmoothNode<E2> as Rx>⟧.stands nodes.items (λ j. [])) }
{
    let first = SmoothNode::open(alloc, below(1), 0, 16)?;
    let second = SmoothNode::open(alloc, below(2), 4, 20)?;
    let third = SmoothNode::open(alloc, below(3), 8, 24)?;
    let fourth = SmoothNode::open(alloc, below(4), 12, 28)?;
    Ok(vec![in alloc; first, second, third, fourth]?)
}

// The demultiplexer above them.
fn node(alloc: Global) -> Result<RxNode<E3, SmoothNode<E2>>, AllocError>
    ensures meaning { IfOk result (λ node. ⟦<RxNode<E3, SmoothNode<E2>> as Rx>⟧.meaning node
        ≡ node_meaning e3 (record { depth = 0; first = 0; second = 0 }) four_smooth) }
    ensures stands { IfOk result (λ node. ⟦<RxNode<E3, SmoothNode<E2>> as Rx>⟧.stands node []) }
{
    let layout = Rc::new(alloc, Layout::open(alloc)?)?;
    RxNode::open(alloc, TOP, layout, children(alloc)?)
}

// A port of the lists 0 to 31, with room for what comes to them.
fn port(alloc: Global) -> Result<MemPort, AllocError>
    ensures { IfOk result (λ port. HoldsEach (⟦<MemPort as Drain>⟧.outputs port)) }
{
    let mut port = MemPort::open(alloc, Vec::new(alloc), 32)?;
    for leaf in 0..32 {
        port.room(leaf, 3_000)?;
    }
    Ok(port)
}

// Whether a list holds the first bits of another, so many and no more.
fn are_first(got: &Packed, bits: &[bool], count: usize) -> bool {
    if got.len() != count {
        return false;
    }
    for place in 0..count {
        if got.get(place) != bit_of(bits, place) {
            return false;
        }
    }
    true
}

// Whether a list holds these marks, as digits.
fn are_marks(got: &Packed, digits: &[u8]) -> bool {
    if got.len() != digits.len() {
        return false;
    }
    for (place, digit) in digits.iter().enumerate() {
        if got.get(place) != (*digit == b'1') {
            return false;
        }
    }
    true
}

// A desynchroniser alone, which puts to the leaves 0 to 3, and its marks to the leaves 4 to 7.
fn alone(alloc: Global) -> Result<SmoothNode<E2>, AllocError>
    ensures meaning { IfOk result (λ node. ⟦<SmoothNode<E2> as Rx>⟧.meaning node
        ≡ smooth_meaning e2 (record { depth = 0; first = 0; second = 0 }) 0 4) }
    ensures stands { IfOk result (λ node. ⟦<SmoothNode<E2> as Rx>⟧.stands node []) }
{
    SmoothNode::open(alloc, TOP, 0, 4)
}

// Adds so many zeros.
fn add_zeros(line: &mut Vec<bool>, count: usize) -> Result<(), AllocError> {
    for _added in 0..count {
        line.push(false)?;
    }
    Ok(())
}

// A line of so many zeros, and then frames of the second order that begin with these bytes: 0xF4 as a right one does, any other
// as a wrong one, and all else as in a frame of zeros, with an additional bit of each tributary.
fn line(alloc: Global, zeros: usize, frames: &[u8]) -> Result<Vec<bool>, AllocError> {
    let mut line = Vec::new(alloc);
    add_zeros(&mut line, zeros)?;
    for first in frames {
        for byte in [*first, 0x10] {
            for place in 0..8u32 {
                line.push((byte >> (7 - place)) & 1 == 1)?;
            }
        }
        add_zeros(&mut line, 832)?;
    }
    Ok(line)
}

// A frame whose first byte is 0xF4 is right; 4 is a wrong one. Of a line of so many zeros and then frames come out so many bits
// of each tributary, in pieces of which 1 marks those in which 206 are read; then so many are held.
#[test]
fn lines_and_what_comes_out(rt: HostRuntime) -> Result<(), Fail> {
    let alloc = rt.alloc();
    let two: &[u8] = &[0xF4, 0xF4];
    let four: &[u8] = &[0xF4, 0xF4, 0xF4, 0xF4];
    let lost: &[u8] = &[0xF4, 0xF4, 0xF4, 4, 4, 4, 4, 0xF4, 0xF4, 0xF4, 0xF4, 0xF4];
    let none: &[u8] = &[];
    let cases = [
        (0, &four[..3], 570, "111", 48, 3),
        (0, two, 0, "", 48, 0),
        (0, lost, 2_423, "111111101111", 48, 11),
        (847, four, 776, "1111", 48, 4),
        (848, four, 981, "10111", 48, 4),
        (3_390, none, 0, "", 48, 0),
        (3_391, none, 158, "1", 47, 0),
        (8_480, none, 1_388, "1000000", 47, 0),
    ];
    for (zeros, frames, bits, marks, fill, delivered) in cases {
        let mut node = alone(alloc)?;
        let mut port = port(alloc)?;
        let line = Packed::of_bits(alloc, &line(alloc, zeros, frames)?)?;
        take_watched(&mut node, &line, &mut port, &mut Quiet)?;
        assert!(rt; port.output(0).len() == bits, "{zeros}");
        assert!(rt; are_marks(port.output(4), marks.as_bytes()), "{zeros}");
        assert!(rt;
            (node.fill(0), node.frames()) == (fill, delivered),
            "{zeros}"
        );
    }
    Ok(())
}

// Whether of each tributary come out the bits of eight frames, but for the 48 that are held, and a 1 for each frame, since it brings
// an additional bit: the first 1,600 bits that its multiplexer took, and 8 ones.
fn eight_frames_come_out(alloc: Global, ones: bool) -> Result<bool, Fail> {
    let mut node = node(alloc)?;
    let mut port = port(alloc)?;
    let line = Packed::of_bits(alloc, &third_order(alloc, ones)?)?;
    take_watched(&mut node, &line, &mut port, &mut Quiet)?;
    for number in 0..16u32 {
        let bits = tributary(alloc, number as usize, ones)?;
        let out = are_first(port.output(number), &bits, 1_600);
        let marked = are_first(port.output(16 + number), &[true; 8], 8);
        if !out || !marked {
            return Ok(false);
        }
    }
    Ok(node.frames() == 20)
}

#[test]
fn desynchronisers_below_a_demultiplexer(rt: HostRuntime) -> Result<(), Fail> {
    for ones in [false, true] {
        assert!(rt; eight_frames_come_out(rt.alloc(), ones)?, "{ones}");
    }
    Ok(())
}
