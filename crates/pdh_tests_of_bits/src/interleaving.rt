//! Bits of four tributaries, put in turn and dealt out.

ghost use Rattle.std.specs.Prelude.{◌≡◌, IfOk};
ghost use Rattle.pdh_bits.specs.Bits.{bits_of};

use pdh_interleaving::{deal_four, interleave};
use pdh_packed::Packed;
use std::alloc::{AllocError, Global};
use std::test::Fail;

/// A list of the bits of two bytes, with room for as many again.
fn packed_of(alloc: Global, bytes: &[u8; 2]) -> Result<Packed, AllocError>
    ensures { IfOk result (λ list. list ≡ record { capacity = 32; bits = bits_of bytes.now }) }
{
    let mut list = Packed::open(alloc, 32)?;
    list.append_bytes(bytes);
    Ok(list)
}

#[test]
fn four_tributaries_take_turns(rt: HostRuntime) -> Result<(), Fail> {
    let alloc = rt.alloc();
    let mut tributaries = [
        packed_of(alloc, &[0xF0, 0x00])?,
        packed_of(alloc, &[0xCC, 0x00])?,
        packed_of(alloc, &[0xAA, 0xFF])?,
        packed_of(alloc, &[0x00, 0x00])?,
    ];
    let mut line = Packed::open(alloc, 44)?;
    interleave(&tributaries, 0, 11, &mut line);
    let mut bytes = [0; 5];
    let written = line.write_bytes(0, &mut bytes);
    deal_four([line.read_filled(0), 0, 0, 0], 11, &mut tributaries);
    let mut byte = [0];
    let dealt = tributaries[1].write_bytes(16, &mut byte);
    assert!(rt; ([written, dealt], byte) == ([5, 1], [0xCC]));
    assert!(rt; bytes == [0xEC, 0xA8, 0x64, 0x20, 0x22]);
    Ok(())
}
