//! Runs of the alignment signal, by bits that come one by one and many at a time.

use pdh_eframes::E2;
use pdh_packed::Packed;
use pdh_phases::Phases;
use std::alloc::{AllocError, Global};
use std::test::Fail;

// Takes a frame whose first ten bits are those of this number, and whose others are zeros.
fn push_frame(phases: &mut Phases<E2>, signal: u32) {
    for slot in 0..848u32 {
        phases.push(slot < 10 && (signal >> (9 - slot)) & 1 == 1);
    }
}

// The runs of phase 5 after each of these frames, where five zeros come first.
fn runs(alloc: Global, signals: &[u32]) -> Result<Vec<u8>, AllocError> {
    let mut phases = Phases::<E2>::open(alloc)?;
    for _zero in 0..5 {
        phases.push(false);
    }
    let mut runs = Vec::new(alloc);
    for signal in signals {
        push_frame(&mut phases, *signal);
        runs.push(phases.run_at(5))?;
    }
    Ok(runs)
}

#[test]
fn a_wrong_signal_ends_a_run(rt: HostRuntime) -> Result<(), Fail> {
    let runs = runs(rt.alloc(), &[0x3D0, 0x3D0, 0x3D0, 0x3D0, 0x3D1, 0x3D0])?;
    assert!(rt; runs.as_slice() == [1u8, 2, 3, 3, 0, 1].as_slice());
    Ok(())
}

#[test]
fn cleared_phases_have_seen_nothing(rt: HostRuntime) -> Result<(), Fail> {
    let mut phases = Phases::<E2>::open(rt.alloc())?;
    push_frame(&mut phases, 0x3D0);
    let seen = [phases.run_at(0), phases.run_at(1)];
    phases.clear();
    let cleared = phases.run_at(0);
    push_frame(&mut phases, 0x3D0);
    assert!(rt; (seen, cleared, phases.run_at(0)) == ([1, 0], 0, 1));
    Ok(())
}

// The bits of four frames from phase 5 on, and of as many from phase 843 on, whose signals begin in one
// frame and end in the next; and eight bits more.
fn two_lines(alloc: Global) -> Result<Packed, AllocError> {
    let mut frame = [0u8; 106];
    frame[0] = 0x87;
    frame[1] = 0xA0;
    frame[105] = 0x1E;
    let mut bytes = Vec::new(alloc);
    for _frame in 0..4u8 {
        bytes.extend_from_slice(&frame)?;
    }
    bytes.push(0x87)?;
    Packed::of_bytes(alloc, &bytes)
}

#[test]
fn many_bits_at_a_time_come_to_the_same(rt: HostRuntime) -> Result<(), Fail> {
    let alloc = rt.alloc();
    let bits = two_lines(alloc)?;
    assert!(rt; bits.len() == 3400);
    let mut by_bit = Phases::<E2>::open(alloc)?;
    for place in 0..3400 {
        by_bit.push(bits.read(place, 1).get(0));
    }
    let mut by_pieces = Phases::<E2>::open(alloc)?;
    let mut done = 0;
    for len in [1, 7, 64, 63, 848, 131, 900, 2, 0, 787, 597] {
        assert!(rt; done <= 3400 && len <= 3400 - done);
        by_pieces.push_all(&bits, done, len);
        done += len;
    }
    for phase in 0..848 {
        assert!(rt; by_bit.run_at(phase) == by_pieces.run_at(phase));
    }
    let runs = [by_pieces.run_at(5), by_pieces.run_at(843)];
    let below = [
        by_pieces.below_three(0, 848),
        by_pieces.below_three(6, 842),
        by_pieces.below_three(844, 4),
    ];
    assert!(rt; (done, runs, below) == (3400, [3, 3], [5, 837, 4]));
    Ok(())
}
