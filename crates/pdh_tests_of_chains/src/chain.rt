//! Worked ends of `mux`, `mux_slips` and `demux`, gaps, and lines that are watched or not.

ghost use Rattle.std.specs.Prelude.{◌≡◌, length, IfOk};
ghost use Rattle.pdh_chain.specs.Chains.{leaves_of};

use crate::chain_sending::{packed, patterns};
use crate::ports::port_of_line;
use crate::tx::{make_bits, node};
use pdh_chain::{Chain, DemuxStop, E2_LEVEL, MuxStop, leaves};
use pdh_clock::Schedule;
use pdh_demux::demux;
use pdh_edge::MemPort;
use pdh_mux::{mux, mux_slips};
use pdh_packed::Packed;
use pdh_shape::{Place, TOP};
use pdh_slips::{KeptSlips, Slip, SlipLog};
use pdh_watch::{Event, Quiet, Watch};
use std::alloc::{AllocError, Global};
use std::test::Fail;

// So many zeros.
fn no_ones(alloc: Global, count: usize) -> Result<Packed, AllocError> {
    let bits = vec![in alloc; false; count]?;
    Packed::of_bits(alloc, &bits)
}

// A list of zeros for each leaf, of these lengths.
fn zeros(alloc: Global, lengths: [usize; 4]) -> Result<Vec<Packed>, AllocError>
    ensures { IfOk result (λ lists. length lists.items ≡ 4) }
{
    let mut lists = Vec::new(alloc);
    lists.push(no_ones(alloc, lengths[0])?)?;
    lists.push(no_ones(alloc, lengths[1])?)?;
    lists.push(no_ones(alloc, lengths[2])?)?;
    lists.push(no_ones(alloc, lengths[3])?)?;
    Ok(lists)
}

// The end of a run over the frames of a schedule, and how many bits it put, for a chain of one level.
fn run(
    alloc: Global,
    chain: Chain,
    schedule: &[u8],
    lengths: [usize; 4],
) -> Result<(Result<(), MuxStop>, usize), Fail>
    requires { leaves_of chain ≡ 4 }
{
    let clock = Schedule::read(alloc, chain.levels(), schedule)?;
    let mut port = MemPort::open(alloc, zeros(alloc, lengths)?, 1)?;
    port.room(0, 4_096)?;
    let end = mux(alloc, chain, &clock, clock.frames(&TOP), None, &mut port);
    Ok((end, port.output(0).len()))
}

fn event(over: bool, trib: u8, frame: u64, slot: u32) -> Result<(), MuxStop> {
    Err(MuxStop::Event {
        over,
        place: Place {
            path: TOP,
            trib,
            frame,
            slot,
        },
    })
}

// A leaf gives 48 bits before the first frame, and then the counts of the frames.
#[test]
fn ends_and_lengths(rt: HostRuntime) -> Result<(), Fail> {
    let two: &[u8] = b"/ 2 205 205 205 205\n";
    let over: &[u8] = b"/ 1 206 206 206 206\n/ 1 848 848 848 848\n";
    let under: &[u8] = b"/ 1 0 206 206 206\n";
    let cases = [
        (Chain::E12, two, [458; 4], Ok(()), 1_696),
        (
            Chain::E12,
            two,
            [458, 458, 457, 458],
            Err(MuxStop::Ended { leaf: 2 }),
            848,
        ),
        (
            Chain::E12,
            two,
            [458, 47, 0, 458],
            Err(MuxStop::Ended { leaf: 1 }),
            0,
        ),
        (Chain::E12, over, [1_102; 4], event(true, 4, 1, 59), 848),
        (Chain::E12, under, [254; 4], event(false, 1, 0, 204), 0),
        (
            Chain::M12,
            b"/ 1 288 288 288 288\n",
            [336; 4],
            Ok(()),
            1_176,
        ),
        (
            Chain::E23,
            b"/ 1 378 378 378 378\n",
            [426; 4],
            Ok(()),
            1_536,
        ),
        (
            Chain::E34,
            b"/ 1 723 723 723 723\n",
            [771; 4],
            Ok(()),
            2_928,
        ),
        (
            Chain::E34,
            b"/ 1 722 722 722 722\n",
            [769; 4],
            Err(MuxStop::Ended { leaf: 0 }),
            0,
        ),
    ];
    for (chain, schedule, lengths, end, bits) in cases {
        assert!(rt; leaves(chain) == 4);
        let got = run(rt.alloc(), chain, schedule, lengths)?;
        assert!(rt; got == (end, bits), "{chain:?}");
    }
    Ok(())
}

// The end of such a run where stores slip and go on, its line, and the log, which takes so many slips.
fn run_slips(
    alloc: Global,
    chain: Chain,
    schedule: &[u8],
    lists: Vec<Packed>,
    most: usize,
) -> Result<(Result<(), MuxStop>, Vec<bool>, KeptSlips), Fail>
    requires { length lists.items ≡ leaves_of chain }
{
    let clock = Schedule::read(alloc, chain.levels(), schedule)?;
    let mut port = MemPort::open(alloc, lists, 1)?;
    port.room(0, 40_000)?;
    let mut log = KeptSlips::open(alloc, most)?;
    let end = mux_slips(
        alloc,
        chain,
        &clock,
        clock.frames(&TOP),
        &mut port,
        &mut log,
    );
    Ok((end, port.output(0).to_bits(alloc)?, log))
}

// A slip of the first tributary in the first frame.
fn slip(over: bool, slot: u32) -> Slip {
    Slip {
        over,
        place: Place {
            path: TOP,
            trib: 1,
            frame: 0,
            slot,
        },
    }
}

#[test]
fn stores_slip_and_go_on(rt: HostRuntime) -> Result<(), Fail> {
    let alloc = rt.alloc();
    let over: &[u8] = b"/ 1 300 206 206 206\n";
    let lists = zeros(alloc, [348, 254, 254, 254])?;
    let (end, line, log) = run_slips(alloc, Chain::E12, over, lists, 8)?;
    assert!(rt; (end, line.len()) == (Ok(()), 848));
    assert!(rt; log.slips() == [slip(true, 426)].as_slice());
    let under: &[u8] = b"/ 1 0 206 206 206\n";
    let lists = zeros(alloc, [48, 254, 254, 254])?;
    let (end, line, log) = run_slips(alloc, Chain::E12, under, lists, 8)?;
    assert!(rt; (end, line.len()) == (Ok(()), 848));
    let slips = [
        slip(false, 204),
        slip(false, 400),
        slip(false, 596),
        slip(false, 792),
    ];
    assert!(rt; log.slips() == slips.as_slice());
    Ok(())
}

// A log that takes no more ends the line, behind the whole frames before the slip.
#[test]
fn a_full_log_ends_the_line(rt: HostRuntime) -> Result<(), Fail> {
    let rows: &[u8] = b"/ 1 206 206 206 206\n/ 1 0 206 206 206\n";
    let lists = zeros(rt.alloc(), [254, 460, 460, 460])?;
    let (end, line, log) = run_slips(rt.alloc(), Chain::E12, rows, lists, 2)?;
    assert!(rt; (end, line.len()) == (Err(MuxStop::LogFailed), 848));
    assert!(rt; (log.slips().len(), log.log_faults()) == (2, 1));
    Ok(())
}

// The line that a multiplexer of four leaves makes of such lists bit by bit, and the log, which takes so many slips.
fn made_bit_by_bit(
    alloc: Global,
    schedule: &[u8],
    lists: Vec<Packed>,
    most: usize,
) -> Result<(Vec<bool>, KeptSlips), Fail>
    requires { length lists.items ≡ 4 }
{
    let clock = Schedule::read(alloc, &[E2_LEVEL], schedule)?;
    let mut feed = MemPort::open(alloc, lists, 0)?;
    let mut node = node(alloc)?;
    let mut log = KeptSlips::open(alloc, most)?;
    let (line, _stop) = make_bits(alloc, &mut node, &clock, &mut feed, &mut log, 40_000)?;
    Ok((line, log))
}

// A store slips in the first frame. Those behind it meet nothing, so `mux_slips` makes them at once.
#[test]
fn frames_behind_a_slip_are_as_made_bit_by_bit(rt: HostRuntime) -> Result<(), Fail> {
    let alloc = rt.alloc();
    let rows: &[u8] = b"/ 1 262 206 206 206\n/ 8 205 206 205 206\n";
    let lists = packed(alloc, &patterns(alloc, Chain::E12, 2_000)?)?;
    let (line, told) = made_bit_by_bit(alloc, rows, lists, 8)?;
    assert!(rt; line.len() == 9 * 848);
    assert!(rt; told.slips() == [slip(true, 728)].as_slice());
    let lists = packed(alloc, &patterns(alloc, Chain::E12, 2_000)?)?;
    let (end, same, log) = run_slips(alloc, Chain::E12, rows, lists, 8)?;
    assert!(rt; (end, same == line) == (Ok(()), true));
    assert!(rt; log.slips() == told.slips());
    Ok(())
}

// How a demultiplexer ends that is to take so many bits of a line of zeros, and how many bits its
// last leaf gets.
fn run_demux(
    alloc: Global,
    chain: Chain,
    zeros: usize,
    bits: u32,
) -> Result<(Result<u64, DemuxStop>, usize), Fail> {
    let count = leaves(chain);
    // a leaf receives no more than its share of a line
    let share = zeros / count as usize + 1;
    let mut port = port_of_line(alloc, no_ones(alloc, zeros)?, share, chain)?;
    let end = demux(alloc, chain, u64::from(bits), &mut port, &mut Quiet);
    Ok((end, port.output(count - 1).len()))
}

// No position of a line of zeros is confirmed, and each whole frame's length of positions gives ones. Nor is one of a line of
// ones, of which a node below the top needs four frames' length less a bit for its leaves to get any: nine frames' ones of the
// node above.
#[test]
fn gaps(rt: HostRuntime) -> Result<(), Fail> {
    let cases = [
        (Chain::E12, 8_480, 8_480, Ok(0), 1_435),
        (Chain::E12, 8_480, 8_481, Err(DemuxStop::Ended), 1_435),
        (Chain::E12, 8_480, 3_391, Ok(0), 205),
        (Chain::E12, 8_480, 3_390, Ok(0), 0),
        (Chain::E23, 6_143, 6_143, Ok(0), 377),
        (Chain::E23, 6_142, 6_142, Ok(0), 0),
        (Chain::E34, 11_711, 11_711, Ok(0), 722),
        (Chain::E34, 0, 1, Err(DemuxStop::Ended), 0),
        (Chain::E13, 18_431, 18_431, Ok(0), 205),
        (Chain::E13, 18_431, 18_430, Ok(0), 0),
        (Chain::E24, 35_135, 35_135, Ok(0), 377),
        (Chain::E14, 11_711, 11_711, Ok(0), 0),
        (Chain::M12, 11_760, 11_760, Ok(0), 2_009),
        (Chain::M23, 19_039, 19_039, Ok(0), 671),
        (Chain::M23, 19_038, 19_038, Ok(0), 0),
        (Chain::M13, 52_359, 52_359, Ok(0), 287),
        (Chain::C13, 52_359, 52_359, Ok(0), 287),
        (Chain::C13, 52_358, 52_358, Ok(0), 0),
    ];
    for (chain, zeros, bits, end, got) in cases {
        let ran = run_demux(rt.alloc(), chain, zeros, bits)?;
        assert!(rt; ran == (end, got), "{chain:?} {bits}");
    }
    Ok(())
}

// Sees events, and counts them.
#[derive(Clone, Copy, Debug, Drop)]
struct Seeing {
    events: u64,
}

impl Watch for Seeing {
    ghost saw = { λ a xs b. Unit {0} };

    ghost saw_nothing = { λ a. tt };

    ghost saw_join = { λ a b c xs ys p q. tt };

    fn note(&mut self, _event: &Event) {
        self.events = self.events.saturating_add(1);
    }
}

// The line that a chain of one level makes of zeros by a schedule, with the bits of these inverted that stand between two places.
fn made(
    alloc: Global,
    chain: Chain,
    schedule: &[u8],
    inverted: [usize; 2],
) -> Result<Vec<bool>, Fail>
    requires { leaves_of chain ≡ 4 }
{
    let clock = Schedule::read(alloc, chain.levels(), schedule)?;
    let mut port = MemPort::open(alloc, zeros(alloc, [9_000; 4])?, 1)?;
    port.room(0, 40_000)?;
    mux(alloc, chain, &clock, clock.frames(&TOP), None, &mut port).is_ok();
    let mut line = Vec::new(alloc);
    for bit in port.output(0).to_bits(alloc)? {
        line.push(bit != (inverted[0] <= line.len() && line.len() < inverted[1]))?;
    }
    Ok(line)
}

// How a demultiplexer of a whole line ends, and the bits that its leaves get, one leaf's behind another's.
fn demuxed<W: Watch>(
    alloc: Global,
    chain: Chain,
    line: Vec<bool>,
    watch: &mut W,
) -> Result<(Result<u64, DemuxStop>, Vec<bool>), Fail> {
    let bits = line.len();
    let mut port = port_of_line(alloc, Packed::of_bits(alloc, &line)?, bits, chain)?;
    let end = demux(alloc, chain, bits as u64, &mut port, watch);
    let mut got = Vec::new(alloc);
    for leaf in 0..leaves(chain) {
        got.extend_from_slice(&port.output(leaf).to_bits(alloc)?)?;
    }
    Ok((end, got))
}

// Leaves get the same bits whoever watches: in alignment, over a loss and after it, and in a gap.
#[test]
fn watched_or_not(rt: HostRuntime) -> Result<(), Fail> {
    let e2: &[u8] = b"/ 12 205 205 205 205\n";
    let e3: &[u8] = b"/ 12 377 377 377 377\n";
    let e4: &[u8] = b"/ 12 722 722 722 722\n";
    let ds2: &[u8] = b"/ 12 287 287 287 287\n";
    let cases = [
        (Chain::M12, Chain::M12, ds2, [0, 0]),
        (Chain::M12, Chain::M12, ds2, [4_000, 6_000]),
        (Chain::E12, Chain::E12, e2, [0, 0]),
        (Chain::E12, Chain::E12, e2, [3_000, 7_000]),
        (Chain::E13, Chain::E23, e3, [0, 0]),
        (Chain::E34, Chain::E34, e4, [2_500, 19_000]),
        (Chain::E24, Chain::E34, e4, [9_000, 21_000]),
    ];
    for (chain, top, schedule, inverted) in cases {
        assert!(rt; leaves(top) == 4);
        let line = made(rt.alloc(), top, schedule, inverted)?;
        let again = line.clone()?;
        let mut seeing = Seeing { events: 0 };
        let unwatched = demuxed(rt.alloc(), chain, line, &mut Quiet)?;
        let watched = demuxed(rt.alloc(), chain, again, &mut seeing)?;
        let seen = (
            unwatched == watched,
            unwatched.1.is_empty(),
            seeing.events > 0,
        );
        assert!(rt; seen == (true, false, true), "{chain:?} {inverted:?}");
    }
    Ok(())
}
