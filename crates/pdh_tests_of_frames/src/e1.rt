//! Worked lines and words.

use pdh_e1::{PackFault, UnpackFault, crc4_after, pack, unpack};
use std::test::Fail;

/// The first octets of two multiframes of zeros.
const FIRST_OCTETS: [u8; 32] = [
    0x1B, 0x5F, 0x1B, 0x5F, 0x1B, 0xDF, 0x1B, 0x5F, 0x9B, 0xDF, 0x1B, 0xDF, 0x9B, 0xDF, 0x9B, 0xDF,
    0x9B, 0x5F, 0x1B, 0x5F, 0x9B, 0xDF, 0x1B, 0x5F, 0x9B, 0xDF, 0x1B, 0xDF, 0x9B, 0xDF, 0x9B, 0xDF,
];

#[test]
fn packs_zeros_and_takes_them_back(rt: HostRuntime) -> Result<(), Fail> {
    let payload = vec![in rt.alloc(); 0u8; 992]?;
    let line = pack(rt.alloc(), &payload)?;
    assert!(rt; line.len() == 1024);
    for frame in 0..32 {
        assert!(rt; line.get(32 * frame) == Some(&FIRST_OCTETS[frame]));
        assert!(rt; line.get(32 * frame + 31) == Some(&0));
    }
    let back = unpack(rt.alloc(), &line)?;
    assert!(rt; back.as_slice() == payload.as_slice());
    Ok(())
}

#[test]
fn finds_a_payload_bit_that_was_turned(rt: HostRuntime) -> Result<(), Fail> {
    let payload = vec![in rt.alloc(); 0u8; 992]?;
    let mut line = pack(rt.alloc(), &payload)?;
    if let Some(octet) = line.get_mut(5) {
        *octet = 1;
    }
    assert!(rt; unpack(rt.alloc(), &line).err() == Some(UnpackFault::Wrong { frame: 8 }));
    Ok(())
}

#[test]
fn refuses_what_is_not_whole(rt: HostRuntime) -> Result<(), Fail> {
    let octets = vec![in rt.alloc(); 0u8; 495]?;
    let faults = (
        pack(rt.alloc(), &octets).err(),
        unpack(rt.alloc(), &octets).err(),
    );
    let due = (
        Some(PackFault::NotWhole { len: 495 }),
        Some(UnpackFault::NotWhole { len: 495 }),
    );
    assert!(rt; faults == due);
    Ok(())
}

#[test]
fn words_of_one_bit(rt: HostRuntime) -> Result<(), Fail> {
    let words = [
        crc4_after(0, &[1]),
        crc4_after(0, &[4]),
        crc4_after(0, &[8]),
    ];
    assert!(rt; words == [3, 12, 11]);
    Ok(())
}

/// Words that CRC-4/G-704 of the program crccheck has for these octets. It takes the least significant bit of an octet
/// first, so its octets and its word were turned.
#[test]
fn words_by_another_program(rt: HostRuntime) -> Result<(), Fail> {
    let words = [
        crc4_after(0, b"123456789"),
        crc4_after(0, b"G.704"),
        crc4_after(0, b"multiframe"),
        crc4_after(0, &[0x1B, 0x5F]),
        crc4_after(0, &[0xFF; 256]),
    ];
    assert!(rt; words == [14, 6, 0, 1, 4]);
    Ok(())
}
