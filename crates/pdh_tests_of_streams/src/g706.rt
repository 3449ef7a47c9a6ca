//! Worked lines.

ghost use Rattle.std.specs.Prelude.{◌≡◌, ◌<◌, ◌+◌, Bool, List, IsTrue, OnOk};
ghost use Rattle.pdh_g706.specs.View.{StandsFor};

use crate::framed::{are_zeros, port_for};
use pdh_e1::pack;
use pdh_edge::{Drain, Failed};
use pdh_g706::E1Align;
use pdh_packed::Packed;
use pdh_shape::TOP;
use pdh_watch::{Event, Kind, Quiet, Watch};
use std::alloc::{AllocError, Global};
use std::test::Fail;

// Takes bits all at once.
fn take_all<D: Drain, W: Watch>(
    align: &mut E1Align,
    bits: &Packed,
    drain: &mut D,
    watch: &mut W,
) -> Result<(), Failed>
    requires stands { (line : List Bool) × StandsFor align.old line }
    requires list { IsTrue ((D.outputs drain.old).holds 0) }
    ensures stands { OnOk result ((line : List Bool) × StandsFor align.new line) }
    ensures holds { (D.outputs drain.new).holds ≡ (D.outputs drain.old).holds }
{
    align.take(bits, drain, watch)
}

// What a machine finds in a line: multiframes, blocks and errored ones, and the octets of its payload.
fn found(alloc: Global, line: &[u8]) -> Result<([u64; 3], Vec<u8>), Fail> {
    let bits = Packed::of_bytes(alloc, line)?;
    let mut port = port_for(alloc, bits.len())?;
    let mut align = E1Align::open(alloc)?;
    take_all(&mut align, &bits, &mut port, &mut Quiet)?;
    let payload = port.output(0).to_bytes(alloc)?;
    Ok((
        [align.multiframes(), align.blocks(), align.errored()],
        payload,
    ))
}

// The line of so many multiframes of zeros.
fn zeros(alloc: Global, multiframes: usize) -> Result<Vec<u8>, Fail>
    requires { multiframes < 1000 }
{
    let payload = vec![in alloc; 0u8; 496 * multiframes]?;
    let line = pack(alloc, &payload)?;
    Ok(line)
}

#[test]
fn one_multiframe_does_not_suffice(rt: HostRuntime) -> Result<(), Fail> {
    let line = zeros(rt.alloc(), 1)?;
    let (counts, payload) = found(rt.alloc(), &line)?;
    assert!(rt; counts == [0, 0, 0]);
    assert!(rt; are_zeros(&payload, 0));
    Ok(())
}

#[test]
fn two_multiframes_are_delivered(rt: HostRuntime) -> Result<(), Fail> {
    let line = zeros(rt.alloc(), 2)?;
    let (counts, payload) = found(rt.alloc(), &line)?;
    assert!(rt; counts == [2, 3, 0]);
    assert!(rt; are_zeros(&payload, 992));
    Ok(())
}

#[test]
fn a_turned_payload_bit_is_one_errored_block(rt: HostRuntime) -> Result<(), Fail> {
    let mut line = zeros(rt.alloc(), 2)?;
    if let Some(octet) = line.get_mut(1) {
        *octet = 1;
    }
    let (counts, payload) = found(rt.alloc(), &line)?;
    assert!(rt; counts == [2, 3, 1]);
    assert!(rt; (payload.len(), payload.first(), payload.get(1)) == (992, Some(&1), Some(&0)));
    Ok(())
}

#[test]
fn lines_are_cut_at_each_octet(rt: HostRuntime) -> Result<(), Fail> {
    let line = zeros(rt.alloc(), 2)?;
    let mut port = port_for(rt.alloc(), 8192)?;
    let mut align = E1Align::open(rt.alloc())?;
    for place in 0..line.len() {
        let bits = Packed::of_bytes(rt.alloc(), &line[place..place + 1])?;
        take_all(&mut align, &bits, &mut port, &mut Quiet)?;
        let counts = [align.multiframes(), align.blocks(), align.errored()];
        if place < 895 {
            assert!(rt; counts == [0, 0, 0]);
        } else if place < 1023 {
            assert!(rt; counts == [1, 2, 0]);
        } else {
            assert!(rt; counts == [2, 3, 0]);
        }
    }
    Ok(())
}

#[test]
fn ones_have_no_frames(rt: HostRuntime) -> Result<(), Fail> {
    let line = vec![in rt.alloc(); 255u8; 2000]?;
    let (counts, payload) = found(rt.alloc(), &line)?;
    assert!(rt; counts == [0, 0, 0]);
    assert!(rt; are_zeros(&payload, 0));
    Ok(())
}

#[test]
fn noise_has_no_multiframes(rt: HostRuntime) -> Result<(), Fail> {
    let mut line = Vec::with_capacity(rt.alloc(), 20000)?;
    let mut state = 88172645463325252u64;
    for _octet in 0..20000 {
        state ^= state.wrapping_shl(13);
        state ^= state >> 7;
        state ^= state.wrapping_shl(17);
        line.push((state & 255) as u8)?;
    }
    let (counts, payload) = found(rt.alloc(), &line)?;
    assert!(rt; counts == [0, 0, 0]);
    assert!(rt; are_zeros(&payload, 0));
    Ok(())
}

// Appends ten frames with the alignment signal in this octet.
fn push_frames(line: &mut Vec<u8>, place: usize) -> Result<(), AllocError> {
    for frame in 0..10 {
        for octet in 0..32 {
            let signal = if frame % 2 == 0 { 0x1B } else { 0x5F };
            line.push(if octet == place { signal } else { 0 })?;
        }
    }
    Ok(())
}

#[test]
fn two_false_alignments_alternate(rt: HostRuntime) -> Result<(), Fail> {
    let mut line = Vec::new(rt.alloc());
    for _time in 0..3 {
        push_frames(&mut line, 0)?;
        push_frames(&mut line, 16)?;
    }
    let (counts, _) = found(rt.alloc(), &line)?;
    assert!(rt; counts == [0, 0, 0]);
    line.extend_from_slice(&zeros(rt.alloc(), 3)?)?;
    let (counts, payload) = found(rt.alloc(), &line)?;
    assert!(rt; counts == [2, 3, 0]);
    assert!(rt; are_zeros(&payload, 992));
    Ok(())
}

#[test]
fn a_lost_frame_loses_its_multiframe(rt: HostRuntime) -> Result<(), Fail> {
    let whole = zeros(rt.alloc(), 6)?;
    let mut line = Vec::new(rt.alloc());
    for place in 0..whole.len() {
        if place < 1280 || place >= 1312 {
            line.push(whole[place])?;
        }
    }
    let (counts, payload) = found(rt.alloc(), &line)?;
    assert!(rt; counts == [5, 9, 0]);
    assert!(rt; are_zeros(&payload, 2480));
    Ok(())
}

// The line of 520 multiframes of zeros, where so many sub-multiframes from this one on have a wrong word.
fn with_errors(alloc: Global, first: usize, count: usize) -> Result<Vec<u8>, Fail>
    requires { first + count < 2000 }
{
    let mut line = zeros(alloc, 520)?;
    for number in 0..count {
        if let Some(octet) = line.get_mut(256 * (first + number + 1)) {
            *octet ^= 0x80;
        }
    }
    Ok(line)
}

#[test]
fn a_group_with_914_errors_is_kept(rt: HostRuntime) -> Result<(), Fail> {
    let line = with_errors(rt.alloc(), 0, 914)?;
    let (counts, payload) = found(rt.alloc(), &line)?;
    assert!(rt; counts == [520, 1039, 914]);
    assert!(rt; are_zeros(&payload, 257_920));
    Ok(())
}

#[test]
fn a_group_with_915_errors_is_a_false_alignment(rt: HostRuntime) -> Result<(), Fail> {
    let line = with_errors(rt.alloc(), 0, 915)?;
    let (counts, payload) = found(rt.alloc(), &line)?;
    assert!(rt; counts == [519, 1037, 915]);
    assert!(rt; are_zeros(&payload, 257_424));
    Ok(())
}

#[test]
fn a_group_of_errors_is_a_false_alignment(rt: HostRuntime) -> Result<(), Fail> {
    let line = with_errors(rt.alloc(), 0, 1000)?;
    let (counts, payload) = found(rt.alloc(), &line)?;
    assert!(rt; counts == [519, 1037, 1000]);
    assert!(rt; are_zeros(&payload, 257_424));
    Ok(())
}

#[test]
fn errors_of_two_groups_do_not_add_up(rt: HostRuntime) -> Result<(), Fail> {
    let line = with_errors(rt.alloc(), 86, 915)?;
    let (counts, _) = found(rt.alloc(), &line)?;
    assert!(rt; counts == [520, 1039, 915]);
    Ok(())
}

// Keeps the first eight events.
#[derive(Drop)]
struct Recorder {
    events: [Option<Event>; 8],
    count: usize,
}

impl Watch for Recorder {
    ghost use Rattle.std.specs.Prelude.{⊤};

    ghost saw = { λ a xs b. ⊤ };

    ghost saw_nothing = { λ a. tt };

    ghost saw_join = { λ a b c xs ys p q. tt };

    fn note(&mut self, event: &Event) {
        if let Some(place) = self.events.get_mut(self.count) {
            *place = Some(*event);
            self.count += 1;
        }
    }
}

#[test]
fn events_come_in_order(rt: HostRuntime) -> Result<(), Fail> {
    let mut line = vec![in rt.alloc(); 255u8; 72]?;
    line.extend_from_slice(&zeros(rt.alloc(), 2)?)?;
    if let Some(octet) = line.get_mut(488) {
        *octet = 0x7F; // frame 13 has an alarm, and its E bit is 0
    }
    let bits = Packed::of_bytes(rt.alloc(), &line)?;
    let mut port = port_for(rt.alloc(), bits.len())?;
    let mut align = E1Align::open(rt.alloc())?;
    let mut watch = Recorder {
        events: [None; 8],
        count: 0,
    };
    take_all(&mut align, &bits, &mut port, &mut watch)?;
    let told = [
        (Kind::AIS_ON, 511),
        (Kind::AIS_OFF, 576),
        (Kind::ALIGNED, 7743),
        (Kind::CRC, 7743),
        (Kind::ALARM_ON, 7743),
        (Kind::EBIT, 7743),
        (Kind::ALARM_OFF, 7743),
    ];
    for number in 0..7 {
        let (kind, bit) = told[number];
        let event = Event {
            kind,
            path: TOP,
            bit,
            value: 0,
        };
        assert!(rt; watch.events[number] == Some(event));
    }
    assert!(rt; watch.count == 7);
    Ok(())
}
