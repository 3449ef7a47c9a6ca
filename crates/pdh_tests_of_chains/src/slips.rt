//! Stores of a multiplexer that slip, where its log takes slips, and end its line, where it takes none.

ghost use Rattle.std.specs.Prelude.{◌<◌, ℕ, IsTrue, IfOk};

use crate::tx::{make_bits, node};
use pdh_bits::bits_of;
use pdh_chain::E2_LEVEL;
use pdh_clock::Schedule;
use pdh_edge::{Feed, MemPort};
use pdh_packed::Packed;
use pdh_shape::{Place, TOP};
use pdh_slips::{KeptSlips, NoSlips, Slip, SlipLog};
use pdh_tx::TxStop;
use std::alloc::{AllocError, Global};
use std::test::Fail;

// Bytes, each so many times.
type Runs<'a> = &'a [(u8, usize)];

// Zeros but for 48 ones behind 102 bits.
const ONES_AMID_ZEROS: [(u8, usize); 5] = [(0x00, 12), (0x03, 1), (0xff, 5), (0xfc, 1), (0x00, 25)];

// Zeros, as many as a lead.
const LEAD_OF_ZEROS: [(u8, usize); 1] = [(0x00, 6)];

// A frame of zeros.
const FRAME_OF_ZEROS: [(u8, usize); 3] = [(0xf4, 1), (0x10, 1), (0x00, 104)];

// A frame of zeros but for its first tributary, which is ones from its first store event on.
const FRAME_OF_ONES: [(u8, usize); 10] = [
    (0xf4, 1),
    (0x10, 1),
    (0x00, 23),
    (0x08, 1),
    (0x80, 1),
    (0x88, 26),
    (0x08, 1),
    (0x88, 25),
    (0x80, 1),
    (0x88, 26),
];

// These bytes in a row.
fn bytes_in(alloc: Global, runs: Runs) -> Result<Vec<u8>, AllocError> {
    let mut bytes = Vec::new(alloc);
    for (byte, count) in runs {
        for _more in 0..*count {
            bytes.push(*byte)?;
        }
    }
    Ok(bytes)
}

// A feed of these bytes for the first leaf, and of zeros for the three others.
fn feed_of(alloc: Global, first: Runs) -> Result<MemPort, AllocError>
    ensures { IfOk result (λ feed. (k : ℕ) → k < 4
        → IsTrue ((⟦<MemPort as Feed>⟧.inputs feed).holds k)) }
{
    let mut lists = Vec::new(alloc);
    lists.push(Packed::of_bytes(alloc, &bytes_in(alloc, first)?)?)?;
    lists.push(Packed::of_bytes(alloc, &[0; 32])?)?;
    lists.push(Packed::of_bytes(alloc, &[0; 32])?)?;
    lists.push(Packed::of_bytes(alloc, &[0; 32])?)?;
    MemPort::open(alloc, lists, 0)
}

// What a multiplexer makes by a schedule of one frame, up to its first stop.
fn sent<G: SlipLog>(
    alloc: Global,
    schedule: &[u8],
    first: Runs,
    log: &mut G,
) -> Result<(Vec<bool>, Option<TxStop>), Fail> {
    let clock = Schedule::read(alloc, &[E2_LEVEL], schedule)?;
    let mut feed = feed_of(alloc, first)?;
    let mut node = node(alloc)?;
    Ok(make_bits(alloc, &mut node, &clock, &mut feed, log, 1000)?)
}

// A slip of the first tributary.
fn slip(over: bool, slot: u32) -> Slip {
    let place = Place {
        path: TOP,
        trib: 1,
        frame: 0,
        slot,
    };
    Slip { over, place }
}

#[test]
fn full_store_drops_its_older_half(rt: HostRuntime) -> Result<(), Fail> {
    let alloc = rt.alloc();
    let mut log = KeptSlips::open(alloc, 9)?;
    let (line, stop) = sent(alloc, b"/ 1 300 206 206 206\n", &ONES_AMID_ZEROS, &mut log)?;
    assert!(rt; line == bits_of(alloc, &bytes_in(alloc, &FRAME_OF_ZEROS)?)?);
    assert!(rt; stop == Some(TxStop::NoFrame { node: TOP }));
    assert!(rt; log.slips() == [slip(true, 426)].as_slice());
    Ok(())
}

#[test]
fn empty_store_is_given_ones(rt: HostRuntime) -> Result<(), Fail> {
    let alloc = rt.alloc();
    let mut log = KeptSlips::open(alloc, 9)?;
    let (line, stop) = sent(alloc, b"/ 1 0 206 206 206\n", &LEAD_OF_ZEROS, &mut log)?;
    assert!(rt; line == bits_of(alloc, &bytes_in(alloc, &FRAME_OF_ONES)?)?);
    assert!(rt; stop == Some(TxStop::NoFrame { node: TOP }));
    let slips = [
        slip(false, 204),
        slip(false, 400),
        slip(false, 596),
        slip(false, 792),
    ];
    assert!(rt; log.slips() == slips.as_slice());
    Ok(())
}

// The log keeps two slips, and the call for the third fails.
#[test]
fn log_that_fails_ends_a_line(rt: HostRuntime) -> Result<(), Fail> {
    let alloc = rt.alloc();
    let mut log = KeptSlips::open(alloc, 2)?;
    let (line, stop) = sent(alloc, b"/ 1 0 206 206 206\n", &LEAD_OF_ZEROS, &mut log)?;
    assert!(rt; line.len() == 596);
    assert!(rt; stop == Some(TxStop::LogFailed));
    let slips = [slip(false, 204), slip(false, 400)];
    assert!(rt; log.slips() == slips.as_slice());
    assert!(rt; log.log_faults() == 1);
    Ok(())
}

#[test]
fn event_ends_a_line_without_slips(rt: HostRuntime) -> Result<(), Fail> {
    let alloc = rt.alloc();
    let (line, stop) = sent(
        alloc,
        b"/ 1 300 206 206 206\n",
        &ONES_AMID_ZEROS,
        &mut NoSlips,
    )?;
    assert!(rt; line.len() == 426);
    assert!(rt; stop == Some(TxStop::Overflow(slip(true, 426).place)));
    Ok(())
}
