//! Worked lines, and lines that are tracked alike bit by bit and many bits at once.

ghost use Rattle.std.specs.Prelude.{◌≡◌, ◌<◌, length};
ghost use Rattle.pdh_align.specs.Aligning.{frames_gained};

use pdh_align::{Aligner, Step};
use pdh_eframes::{E2, E3, E4};
use pdh_packed::{Packed, Word};
use pdh_shape::{Marks, Role, Shape};
use std::alloc::{AllocError, Global};
use std::test::Fail;

// Counts the steps over a line of frames, each of 106 bytes: their first byte, 0x10 and zeros.
fn steps(alloc: Global, firsts: &[u8]) -> Result<[u32; 5], AllocError> {
    let mut aligner = Aligner::<E2>::open(alloc)?;
    let mut counts = [0u32; 5];
    for first in firsts {
        for place in 0..848u32 {
            let byte = if place < 8 {
                *first
            } else if place < 16 && *first != 0 {
                0x10
            } else {
                0
            };
            let bit = (byte >> (7 - place % 8)) & 1 == 1;
            let kind = match aligner.push(bit) {
                Step::Nothing => 0,
                Step::Rejected => 1,
                Step::Aligned => 2,
                Step::Frame => 3,
                Step::Lost => 4,
            };
            counts[kind] = counts[kind].saturating_add(1);
        }
    }
    Ok(counts)
}

#[test]
fn four_bad_signals_lose_the_alignment(rt: HostRuntime) -> Result<(), Fail> {
    let counts = steps(
        rt.alloc(),
        &[0xF4, 0xF4, 0xF4, 4, 4, 4, 4, 0xF4, 0xF4, 0xF4, 0xF4, 0xF4],
    )?;
    assert!(rt; counts == [9320, 848, 2, 5, 1]);
    Ok(())
}

#[test]
fn zeros_are_rejected(rt: HostRuntime) -> Result<(), Fail> {
    let counts = steps(rt.alloc(), &[0, 0, 0, 0, 0, 0, 0, 0, 0, 0])?;
    assert!(rt; counts == [2543, 5937, 0, 0, 0]);
    Ok(())
}

// A bit of a frame that has a one in the slot 20 + its number. The fourth signal bit of frame 3 is
// wrong.
fn numbered(frame: u32, slot: u32) -> bool {
    match slot {
        0 | 1 | 2 | 5 => true,
        3 => frame != 3,
        _ => slot.wrapping_sub(20) == frame,
    }
}

// What is read of a ready frame: its slots 20 to 23, and the marks of the newest.
type Read = ([bool; 4], Marks);

// What is read of the ready frame that is so far back.
fn read_of(aligner: &Aligner<E2>, back: u8) -> Read
    requires { back < length aligner.now.ready }
{
    let slots = [
        aligner.frame(back, 20),
        aligner.frame(back, 21),
        aligner.frame(back, 22),
        aligner.frame(back, 23),
    ];
    (slots, aligner.marks())
}

// The slots 3, 5, 22 and 23 of the newest frame, read off its bits in a list.
fn appended(alloc: Global, aligner: &Aligner<E2>) -> Result<[bool; 4], AllocError>
    requires { 0 < length aligner.now.ready }
{
    let mut bits = Packed::open(alloc, 848)?;
    aligner.append_frame(0, &mut bits);
    Ok([bits.get(3), bits.get(5), bits.get(22), bits.get(23)])
}

// Adds what is read of the frames that a step made ready: of the first and of the last of three, and of a further one in two ways.
fn read_ready(
    alloc: Global,
    aligner: &Aligner<E2>,
    step: Step,
    reads: &mut Vec<Read>,
) -> Result<(), AllocError>
    requires { length aligner.now.ready ≡ frames_gained step }
{
    match step {
        Step::Aligned => {
            reads.push(read_of(aligner, 2))?;
            reads.push(read_of(aligner, 0))?;
        }
        Step::Frame => {
            reads.push(read_of(aligner, 0))?;
            reads.push((appended(alloc, aligner)?, aligner.marks()))?;
        }
        _ => {}
    }
    Ok(())
}

// What is read of four frames.
fn reads(alloc: Global) -> Result<Vec<Read>, AllocError> {
    let mut aligner = Aligner::<E2>::open(alloc)?;
    let mut reads = Vec::new(alloc);
    for place in 0..3392u32 {
        let step = aligner.push(numbered(place / 848, place % 848));
        read_ready(alloc, &aligner, step, &mut reads)?;
    }
    Ok(reads)
}

#[test]
fn ready_frames_are_read(rt: HostRuntime) -> Result<(), Fail> {
    let right = Marks {
        framing: 0,
        multi: false,
    };
    let wrong = Marks {
        framing: 8,
        multi: false,
    };
    let due = [
        ([true, false, false, false], right),
        ([false, false, true, false], right),
        ([false, false, false, true], wrong),
        ([false, true, false, true], wrong),
    ];
    let reads = reads(rt.alloc())?;
    assert!(rt; reads.as_slice() == due.as_slice());
    Ok(())
}

#[test]
fn a_ready_frame_is_exchanged_once(rt: HostRuntime) -> Result<(), Fail> {
    let mut aligner = Aligner::<E2>::open(rt.alloc())?;
    let mut list = Packed::open(rt.alloc(), 848)?;
    let mut exchanged = 0u32;
    for frame in 0..6 {
        for slot in 0..848 {
            let step = aligner.push(numbered(frame, slot));
            let whole = aligner.exchange_frame(&mut list);
            assert!(rt; whole == matches!(step, Step::Frame));
            if whole {
                assert!(rt; [list.get(22), list.get(23)] == [false, frame == 3]);
                let again = aligner.exchange_frame(&mut list);
                assert!(rt; !again);
                exchanged = exchanged.saturating_add(1);
            }
        }
    }
    assert!(rt; exchanged == 3);
    Ok(())
}

#[test]
fn phases_tell_of_a_search(rt: HostRuntime) -> Result<(), Fail> {
    let mut aligner = Aligner::<E2>::open(rt.alloc())?;
    for slot in 0..848 {
        aligner.push(numbered(0, slot));
    }
    let runs = match aligner.phases() {
        Some(phases) => Some([phases.run_at(0), phases.run_at(1)]),
        None => None,
    };
    assert!(rt; runs == Some([1, 0]));
    Ok(())
}

// ---- taken bit by bit and many at once

// What a frame's length of a line is.
#[derive(Clone, Copy)]
enum Part {
    Right,
    // the first bit of its alignment signal is wrong
    Wrong,
    // without its last bit
    Short,
    Noise,
    Zeros,
}

// What tracking a line gained.
#[derive(Drop)]
struct Gains {
    // positions that were passed over, alignments, further frames and losses
    steps: [u32; 4],
    // the delivered frames, one after another
    frames: Packed,
}

// The next number of a made noise.
fn noise(state: u64) -> u64 {
    let state = state ^ (state << 13);
    let state = state ^ (state >> 7);
    state ^ (state << 17)
}

// A bit of a frame's length of a line, where the noise has this bit.
fn bit_of<S: Shape>(part: Part, slot: u32, noise: bool) -> bool
    requires { slot < S.LEN }
{
    match part {
        Part::Zeros => false,
        Part::Noise => noise,
        _ => match S::role(slot) {
            Role::Align(bit) => bit != (slot == 0 && matches!(part, Part::Wrong)),
            _ => noise,
        },
    }
}

// A line of frames' lengths.
fn line_of<S: Shape>(alloc: Global, parts: &[Part]) -> Result<Packed, AllocError> {
    let mut line = Packed::open(alloc, parts.len().saturating_mul(S::LEN as usize))?;
    let mut state = 88172645463325252u64;
    for part in parts {
        for slot in 0..S::LEN {
            state = noise(state);
            let last = slot + 1 == S::LEN && matches!(*part, Part::Short);
            if !last && line.len() < line.capacity() {
                line.append(Word::of_bits(&[bit_of::<S>(*part, slot, state % 2 == 1)]));
            }
        }
    }
    Ok(line)
}

// Notes a step and the frames that it made ready.
fn note<S: Shape>(aligner: &Aligner<S>, step: Step, gains: &mut Gains)
    requires { length aligner.now.ready ≡ frames_gained step }
{
    let (kind, ready) = match step {
        Step::Nothing => {
            return;
        }
        Step::Rejected => (0, 0),
        Step::Aligned => (1, 3),
        Step::Frame => (2, 1),
        Step::Lost => (3, 0),
    };
    gains.steps[kind] = gains.steps[kind].saturating_add(1);
    for newer in 0..ready {
        if gains.frames.capacity() - gains.frames.len() >= S::LEN as usize {
            aligner.append_frame(ready - 1 - newer, &mut gains.frames);
        }
    }
}

fn no_gains(alloc: Global, line: &Packed) -> Result<Gains, AllocError> {
    let frames = Packed::open(alloc, line.len())?;
    Ok(Gains {
        steps: [0; 4],
        frames,
    })
}

// What is gained where the line is taken bit by bit.
fn gained_by_bits<S: Shape>(alloc: Global, line: &Packed) -> Result<Gains, AllocError> {
    let mut aligner = Aligner::<S>::open(alloc)?;
    let mut gains = no_gains(alloc, line)?;
    for place in 0..line.len() {
        let step = aligner.push(line.get(place));
        note(&aligner, step, &mut gains);
    }
    Ok(gains)
}

// What is gained where a receiver takes it.
fn gained_by_slices<S: Shape>(alloc: Global, line: &Packed) -> Result<Gains, AllocError> {
    let mut aligner = Aligner::<S>::open(alloc)?;
    let mut gains = no_gains(alloc, line)?;
    let mut done = aligner.take(line, 0, line.len());
    for _turn in 0..line.len() {
        if done >= line.len() {
            break;
        }
        let passed = aligner.pass(line, done, 1000);
        done += passed;
        gains.steps[0] = gains.steps[0].saturating_add(passed as u32);
        if passed == 0 {
            let step = aligner.push(line.get(done));
            note(&aligner, step, &mut gains);
            done += 1;
        }
        done += aligner.take(line, done, line.len() - done);
    }
    Ok(gains)
}

// Whether two lists have the same bits.
fn same(a: &Packed, b: &Packed) -> bool {
    if a.len() != b.len() {
        return false;
    }
    for place in 0..a.len() {
        if a.get(place) != b.get(place) {
            return false;
        }
    }
    true
}

// Whether the same is gained both ways, and what.
fn gained<S: Shape>(alloc: Global, parts: &[Part]) -> Result<(bool, [u32; 4]), AllocError> {
    let line = line_of::<S>(alloc, parts)?;
    let by_bits = gained_by_bits::<S>(alloc, &line)?;
    let by_slices = gained_by_slices::<S>(alloc, &line)?;
    let same = by_bits.steps == by_slices.steps && same(&by_bits.frames, &by_slices.frames);
    Ok((same, by_bits.steps))
}

#[test]
fn both_ways_gain_the_same(rt: HostRuntime) -> Result<(), Fail> {
    let alloc = rt.alloc();
    let right = [Part::Right; 6];
    let found = [
        gained::<E2>(alloc, &right)?,
        gained::<E3>(alloc, &right)?,
        gained::<E4>(alloc, &right)?,
    ];
    assert!(rt; found == [(true, [0, 1, 3, 0]); 3]);
    Ok(())
}

#[test]
fn both_ways_gain_the_same_of_others(rt: HostRuntime) -> Result<(), Fail> {
    let alloc = rt.alloc();
    let zeros = [Part::Zeros; 6];
    let noise = [Part::Noise; 6];
    let damaged = [
        Part::Noise,
        Part::Short,
        Part::Right,
        Part::Right,
        Part::Right,
        Part::Wrong,
        Part::Right,
        Part::Wrong,
        Part::Wrong,
        Part::Wrong,
        Part::Wrong,
        Part::Right,
        Part::Right,
        Part::Right,
        Part::Right,
        Part::Short,
        Part::Noise,
        Part::Noise,
        Part::Right,
        Part::Right,
        Part::Zeros,
        Part::Right,
        Part::Right,
        Part::Right,
    ];
    let found = [
        gained::<E2>(alloc, &zeros)?,
        gained::<E2>(alloc, &noise)?,
        gained::<E2>(alloc, &damaged)?,
        gained::<E4>(alloc, &damaged)?,
    ];
    let due = [
        (true, [2545, 0, 0, 0]),
        (true, [2545, 0, 0, 0]),
        (true, [4238, 3, 10, 2]),
        (true, [14638, 3, 10, 2]),
    ];
    assert!(rt; found == due);
    Ok(())
}
