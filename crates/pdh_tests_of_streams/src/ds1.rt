//! Worked lines of DS1 superframes.

ghost use Rattle.std.specs.Prelude.{◌≡◌, ◌<◌, Bool, List, IsTrue, OnOk};
ghost use Rattle.pdh_ds1.specs.View.{PacksFor, StandsFor};

use crate::framed::{are_zeros, port_for};
use pdh_ds1::{
    Ds1Align, Ds1PackFault, Ds1Packer, Ds1UnpackFault, Frame1, crc6_after, pack, unpack,
};
use pdh_edge::{Drain, Failed};
use pdh_packed::Packed;
use std::alloc::Global;
use std::test::Fail;

// Takes bits all at once.
fn take_all<D: Drain>(align: &mut Ds1Align, bits: &Packed, drain: &mut D) -> Result<(), Failed>
    requires stands { (line : List Bool) × StandsFor align.old line }
    requires list { IsTrue ((D.outputs drain.old).holds 0) }
    ensures stands { OnOk result ((line : List Bool) × StandsFor align.new line) }
    ensures holds { (D.outputs drain.new).holds ≡ (D.outputs drain.old).holds }
{
    align.take(bits, drain)
}

// What a machine has counted: superframes, blocks and errored ones.
fn counts_of(align: &Ds1Align) -> [u64; 3] {
    [align.superframes(), align.blocks(), align.errored()]
}

// What a machine counts of a line: superframes, blocks and errored ones.
fn counted<D: Drain>(
    alloc: Global,
    frame: Frame1,
    bits: &Packed,
    drain: &mut D,
) -> Result<[u64; 3], Fail>
    requires { IsTrue ((D.outputs drain.old).holds 0) }
    ensures { OnOk result ((D.outputs drain.new).holds ≡ (D.outputs drain.old).holds) }
{
    let mut align = Ds1Align::open(alloc, frame)?;
    take_all(&mut align, bits, drain)?;
    Ok(counts_of(&align))
}

// What a machine finds in bits: superframes, blocks and errored ones, and the octets of its payload.
fn found_in(alloc: Global, frame: Frame1, bits: &Packed) -> Result<([u64; 3], Vec<u8>), Fail> {
    let mut port = port_for(alloc, bits.len())?;
    let counts = counted(alloc, frame, bits, &mut port)?;
    Ok((counts, port.output(0).to_bytes(alloc)?))
}

// What a machine finds in a line.
fn found(alloc: Global, frame: Frame1, line: &[u8]) -> Result<([u64; 3], Vec<u8>), Fail> {
    found_in(alloc, frame, &Packed::of_bytes(alloc, line)?)
}

// What a machine has counted after each octet of a line of at most 4,096.
fn counts_by_octets(alloc: Global, frame: Frame1, line: &[u8]) -> Result<Vec<[u64; 3]>, Fail> {
    let mut port = port_for(alloc, 32_768)?;
    let mut align = Ds1Align::open(alloc, frame)?;
    let mut counts = Vec::with_capacity(alloc, line.len())?;
    for place in 0..line.len() {
        let bits = Packed::of_bytes(alloc, &line[place..place + 1])?;
        take_all(&mut align, &bits, &mut port)?;
        counts.push(counts_of(&align))?;
    }
    Ok(counts)
}

// Takes the next bits of a payload.
fn pack_next<D: Drain>(packer: &mut Ds1Packer, bits: &Packed, drain: &mut D) -> Result<(), Failed>
    requires stands { (payload : List Bool) × PacksFor packer.old payload }
    requires list { IsTrue ((D.outputs drain.old).holds 0) }
    ensures stands { OnOk result ((payload : List Bool) × PacksFor packer.new payload) }
    ensures holds { (D.outputs drain.new).holds ≡ (D.outputs drain.old).holds }
{
    packer.take(bits, drain)
}

// The line of a payload of at most 4,096 octets that comes octet by octet.
fn packed_by_octets(alloc: Global, frame: Frame1, payload: &[u8]) -> Result<Vec<u8>, Fail> {
    let mut port = port_for(alloc, 65_536)?;
    let mut packer = Ds1Packer::open(alloc, frame)?;
    for place in 0..payload.len() {
        let bits = Packed::of_bytes(alloc, &payload[place..place + 1])?;
        pack_next(&mut packer, &bits, &mut port)?;
    }
    let line = port.output(0).to_bytes(alloc)?;
    Ok(line)
}

// The line of so many times 24 frames of zeros.
fn zeros(alloc: Global, frame: Frame1, count: usize) -> Result<Vec<u8>, Fail>
    requires { count < 1000 }
{
    let payload = vec![in alloc; 0u8; 576 * count]?;
    let line = pack(alloc, frame, &payload)?;
    Ok(line)
}

// What a machine counts in a line of so many times 24 frames of zeros, where the F bits of these frames are turned.
fn counts_with_turned(
    alloc: Global,
    form: Frame1,
    count: usize,
    frames: &[u16],
) -> Result<[u64; 3], Fail>
    requires { count < 1000 }
{
    let mut line = zeros(alloc, form, count)?;
    for frame in frames {
        let place = 193 * usize::from(*frame);
        if let Some(octet) = line.get_mut(place / 8) {
            *octet ^= 128 >> (place % 8);
        }
    }
    let (counts, _) = found(alloc, form, &line)?;
    Ok(counts)
}

/// The F bits of three extended superframes of zeros.
const F_BITS: [u8; 72] = [
    1, 0, 1, 0, 1, 0, 1, 0, 1, 0, 1, 1, 1, 0, 1, 0, 1, 0, 1, 1, 1, 0, 1, 1, //
    1, 0, 1, 0, 1, 0, 1, 0, 1, 0, 1, 1, 1, 0, 1, 0, 1, 1, 1, 1, 1, 0, 1, 1, //
    1, 0, 1, 0, 1, 0, 1, 0, 1, 0, 1, 1, 1, 0, 1, 0, 1, 1, 1, 1, 1, 0, 1, 1,
];

#[test]
fn packs_zeros_and_takes_them_back(rt: HostRuntime) -> Result<(), Fail> {
    let line = zeros(rt.alloc(), Frame1::Extended, 3)?;
    assert!(rt; line.len() == 1737);
    let bits = Packed::of_bytes(rt.alloc(), &line)?;
    assert!(rt; bits.len() == 13896);
    for frame in 0..72 {
        assert!(rt; bits.get(193 * frame) == (F_BITS[frame] == 1));
    }
    let back = unpack(rt.alloc(), Frame1::Extended, &line)?;
    assert!(rt; are_zeros(&back, 1728));
    Ok(())
}

#[test]
fn packs_octet_by_octet_as_the_whole(rt: HostRuntime) -> Result<(), Fail> {
    let mut payload = vec![in rt.alloc(); 0u8; 1728]?;
    for (place, octet) in payload.iter_mut().enumerate() {
        *octet = (place % 251) as u8;
    }
    for frame in [Frame1::Super, Frame1::Extended] {
        let line = packed_by_octets(rt.alloc(), frame, &payload)?;
        assert_eq!(rt; line, pack(rt.alloc(), frame, &payload)?);
    }
    Ok(())
}

#[test]
fn three_extended_superframes_are_delivered(rt: HostRuntime) -> Result<(), Fail> {
    let line = zeros(rt.alloc(), Frame1::Extended, 3)?;
    let (counts, payload) = found(rt.alloc(), Frame1::Extended, &line)?;
    assert!(rt; counts == [3, 2, 0]);
    assert!(rt; are_zeros(&payload, 1728));
    Ok(())
}

#[test]
fn two_superframes_do_not_suffice(rt: HostRuntime) -> Result<(), Fail> {
    let line = zeros(rt.alloc(), Frame1::Super, 1)?;
    let (counts, payload) = found(rt.alloc(), Frame1::Super, &line)?;
    assert!(rt; counts == [0, 0, 0]);
    assert!(rt; are_zeros(&payload, 0));
    Ok(())
}

#[test]
fn superframes_are_cut_at_each_octet(rt: HostRuntime) -> Result<(), Fail> {
    let line = zeros(rt.alloc(), Frame1::Super, 2)?;
    let counts = counts_by_octets(rt.alloc(), Frame1::Super, &line)?;
    assert!(rt; counts.len() == 1158);
    for (place, count) in counts.iter().enumerate() {
        let superframes = if place < 868 {
            0
        } else if place < 1157 {
            3
        } else {
            4
        };
        assert!(rt; *count == [superframes, 0, 0]);
    }
    Ok(())
}

#[test]
fn extended_superframes_are_cut_at_each_octet(rt: HostRuntime) -> Result<(), Fail> {
    let line = zeros(rt.alloc(), Frame1::Extended, 4)?;
    let counts = counts_by_octets(rt.alloc(), Frame1::Extended, &line)?;
    assert!(rt; counts.len() == 2316);
    for (place, count) in counts.iter().enumerate() {
        if place < 1736 {
            assert!(rt; *count == [0, 0, 0]);
        } else if place < 2315 {
            assert!(rt; *count == [3, 2, 0]);
        } else {
            assert!(rt; *count == [4, 3, 0]);
        }
    }
    Ok(())
}

#[test]
fn one_wrong_framing_bit_loses_no_superframe(rt: HostRuntime) -> Result<(), Fail> {
    for frame in 36..60 {
        let counts = counts_with_turned(rt.alloc(), Frame1::Super, 4, &[frame])?;
        assert!(rt; counts == [8, 0, 0]);
    }
    Ok(())
}

#[test]
fn one_wrong_framing_bit_loses_no_extended_superframe(rt: HostRuntime) -> Result<(), Fail> {
    for number in 18..30 {
        let counts = counts_with_turned(rt.alloc(), Frame1::Extended, 8, &[4 * number + 3])?;
        assert!(rt; counts == [8, 7, 0]);
    }
    Ok(())
}

/// The second stands one to twelve framing bits behind the first, which is any of the fourth superframe. Two of four in a row
/// are a loss, and the superframe with the second isn't delivered.
#[test]
fn two_wrong_framing_bits_of_superframes(rt: HostRuntime) -> Result<(), Fail> {
    for pair in 0..144 {
        let first = 36 + pair / 12;
        let distance = 1 + pair % 12;
        let superframes = if distance <= 3 { 7 } else { 8 };
        let counts = counts_with_turned(rt.alloc(), Frame1::Super, 4, &[first, first + distance])?;
        assert!(rt; counts == [superframes, 0, 0]);
    }
    Ok(())
}

/// The same of extended superframes, of which every fourth frame has a framing bit. No block is judged over a loss.
#[test]
fn two_wrong_framing_bits_of_extended_superframes(rt: HostRuntime) -> Result<(), Fail> {
    for pair in 0..72 {
        let first = 75 + 4 * (pair / 12);
        let distance = 1 + pair % 12;
        let counts = counts_with_turned(
            rt.alloc(),
            Frame1::Extended,
            8,
            &[first, first + 4 * distance],
        )?;
        if distance <= 3 {
            assert!(rt; counts == [7, 5, 0]);
        } else {
            assert!(rt; counts == [8, 7, 0]);
        }
    }
    Ok(())
}

#[test]
fn finds_a_payload_bit_that_was_turned(rt: HostRuntime) -> Result<(), Fail> {
    let mut line = zeros(rt.alloc(), Frame1::Extended, 3)?;
    if let Some(octet) = line.get_mut(578) {
        *octet ^= 1;
    }
    assert!(rt;
        unpack(rt.alloc(), Frame1::Extended, &line).err()
            == Some(Ds1UnpackFault::Wrong { frame: 41 })
    );
    Ok(())
}

#[test]
fn refuses_what_is_not_whole(rt: HostRuntime) -> Result<(), Fail> {
    let octets = vec![in rt.alloc(); 0u8; 575]?;
    assert!(rt;
        pack(rt.alloc(), Frame1::Super, &octets).err() == Some(Ds1PackFault::NotWhole { len: 575 })
    );
    assert!(rt;
        unpack(rt.alloc(), Frame1::Super, &octets).err()
            == Some(Ds1UnpackFault::NotWhole { len: 575 })
    );
    Ok(())
}

/// Words that CRC-6/G-704 of the program crccheck has for these octets. It takes the least significant bit of an octet
/// first, so its octets and its words were turned. The first are the nine digits, turned.
#[test]
fn words_by_another_program(rt: HostRuntime) -> Result<(), Fail> {
    let digits = [0x8C, 0x4C, 0xCC, 0x2C, 0xAC, 0x6C, 0xEC, 0x1C, 0x9C];
    assert!(rt; crc6_after(0, &digits) == 24);
    assert!(rt; crc6_after(0, &[1]) == 3);
    assert!(rt; crc6_after(0, &[0xFF; 579]) == 19);
    Ok(())
}
