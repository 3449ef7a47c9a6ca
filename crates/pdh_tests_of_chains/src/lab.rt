//! The beginning of a test pattern, and worked drills.

use pdh_bits::bytes_of;
use pdh_chain::Chain;
use pdh_lab::{Drill, drill};
use pdh_patterns::Pattern;
use std::test::Fail;

#[test]
fn a_pattern_begins_with_its_bytes(rt: HostRuntime) -> Result<(), Fail> {
    let alloc = rt.alloc();
    let mut pattern = Pattern::new(1, 0);
    let mut bits = Vec::new(alloc);
    for _bit in 0..32 {
        bits.push(pattern.next())?;
    }
    let bytes = bytes_of(alloc, &bits)?;
    assert!(rt; bytes.as_slice() == [0x00, 0x82, 0x03, 0x0C].as_slice());
    Ok(())
}

// A chain, a seed and a number of frames, and the report: the leaves, the bits that entered and came
// out, the equal leaves, and the lateness.
type Case = (Chain, u64, u64, (u32, u64, u64, u32, u64));

const CASES: [Case; 6] = [
    (Chain::E12, 1, 3, (4, 2_656, 2_468, 4, 47)),
    (Chain::E12, 1, 0, (4, 0, 0, 4, 0)),
    (Chain::M12, 3, 2, (4, 2_492, 0, 4, 623)),
    (Chain::E34, 999_999_999, 4, (4, 11_752, 11_560, 4, 48)),
    (Chain::E13, 7, 40, (16, 59_968, 55_916, 16, 254)),
    (Chain::C13, 5, 12, (28, 57_764, 48_356, 28, 336)),
];

#[test]
fn leaves_come_back_late(rt: HostRuntime) -> Result<(), Fail> {
    for (chain, seed, frames, (leaves, entered, out, equal, late)) in CASES {
        let came = drill(rt.alloc(), chain, seed, frames)?;
        let told = Drill {
            leaves,
            entered,
            out,
            equal,
            late,
        };
        assert!(rt; came == told, "{chain:?}");
    }
    Ok(())
}
