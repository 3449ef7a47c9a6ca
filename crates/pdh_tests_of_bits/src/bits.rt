//! Worked bits and bytes.

use pdh_bits::{BitOut, Full, bits_of, bytes_of};
use std::test::Fail;

/// The bits of the bytes F4 10.
const SIXTEEN_BITS: [bool; 16] = [
    true, true, true, true, false, true, false, false, false, false, false, true, false, false,
    false, false,
];

#[test]
fn bits_of_two_bytes(rt: HostRuntime) -> Result<(), Fail> {
    let bits = bits_of(rt.alloc(), &[0xF4, 0x10])?;
    assert!(rt; bits.as_slice() == SIXTEEN_BITS.as_slice());
    Ok(())
}

#[test]
fn whole_bytes_of_bits(rt: HostRuntime) -> Result<(), Fail> {
    let all = bytes_of(rt.alloc(), &SIXTEEN_BITS)?;
    assert!(rt; all.as_slice() == [0xF4, 0x10].as_slice());
    let one = bytes_of(rt.alloc(), &SIXTEEN_BITS[..15])?;
    assert!(rt; one.as_slice() == [0xF4].as_slice());
    Ok(())
}

#[test]
fn bits_go_out_as_bytes(rt: HostRuntime) -> Result<(), Fail> {
    let mut out = BitOut::open(rt.alloc(), 16)?;
    for bit in SIXTEEN_BITS {
        assert!(rt; out.push(bit) == Ok(()));
    }
    let full = (out.push(true), out.held());
    let mut one = [0xAA];
    let taken = out.take_bytes(&mut one);
    let first = (taken, one, out.push(true), out.held());
    let mut three = [0xAA; 3];
    let second = (out.take_bytes(&mut three), out.held());
    assert!(rt; (full, first) == ((Err(Full), 16), (1, [0xF4], Ok(()), 9)));
    assert!(rt; (second, three) == ((1, 1), [0x10, 0xAA, 0xAA]));
    Ok(())
}
