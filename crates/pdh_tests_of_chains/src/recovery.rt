//! Lines after their last error: what each leaf gets from then on.

ghost use Rattle.std.specs.Prelude.{◌≡◌, length, IfOk};
ghost use Rattle.pdh_chain.specs.Chains.{leaves_of};

use crate::chain_sending::sent;
use crate::ports::port_of_line;
use pdh_chain::{Chain, leaves};
use pdh_clock::{Bias, Schedule};
use pdh_demux::demux;
use pdh_edge::MemPort;
use pdh_packed::Packed;
use pdh_patterns::Pattern;
use pdh_script::Script;
use pdh_watch::Quiet;
use std::alloc::{AllocError, Global};
use std::test::Fail;

// The first bits of each leaf's test pattern.
fn patterns(alloc: Global, chain: Chain, bits: usize) -> Result<Vec<Vec<bool>>, AllocError>
    ensures { IfOk result (λ lists. length lists.items ≡ leaves_of chain) }
{
    let mut lists = Vec::new(alloc);
    for leaf in 0..leaves(chain) {
        let mut pattern = Pattern::new(1, leaf);
        let mut list = Vec::new(alloc);
        for _bit in 0..bits {
            list.push(pattern.next())?;
        }
        lists.push(list)?;
    }
    Ok(lists)
}

// What a script makes of a line.
fn bent(alloc: Global, line: &[bool], text: &str) -> Result<Vec<bool>, Fail> {
    let bits = line.len() as u64;
    let script = Script::read(alloc, text.as_bytes(), bits)?;
    let mut lists = Vec::new(alloc);
    lists.push(Packed::of_bits(alloc, line)?)?;
    let mut port = MemPort::open(alloc, lists, 1)?;
    port.room(0, line.len())?;
    let mut buffer = Packed::short(alloc);
    if script.apply(bits, &mut buffer, &mut port).is_err() {
        return Err(Fail::new("the script stopped"));
    }
    Ok(port.output(0).to_bits(alloc)?)
}

// What each leaf receives of a line.
fn received(alloc: Global, chain: Chain, line: &[bool]) -> Result<Vec<Vec<bool>>, Fail> {
    let bits = line.len();
    let mut port = port_of_line(alloc, Packed::of_bits(alloc, line)?, bits, chain)?;
    if demux(alloc, chain, bits as u64, &mut port, &mut Quiet).is_err() {
        return Err(Fail::new("demux stopped"));
    }
    let mut got = Vec::new(alloc);
    for leaf in 0..leaves(chain) {
        got.push(port.output(leaf).to_bits(alloc)?)?;
    }
    Ok(got)
}

// The received bits from this place on are the sent ones from that place on.
fn rejoins(received: &[bool], sent: &[bool], places: (usize, usize)) -> bool {
    match (received.get(places.0..), sent.get(places.1..)) {
        (Some(tail), Some(rest)) => rest.starts_with(tail),
        _ => false,
    }
}

// A chain, the frames of its top, what a script drops of their line, how many bits each leaf receives at least, and the two
// places from which on all that it receives is what it sent.
type Case = (Chain, u64, &'static str, usize, (usize, usize));

// In each chain bits are left out of the top's line. Its first nodes are aligned a while longer where they were not, or lose
// what they had, and each level comes back in turn.
const CASES: [Case; 4] = [
    (Chain::E13, 40, "drop 6344 104", 3_286, (820, 1_028)),
    (Chain::E14, 60, "drop 9000 104", 2_261, (205, 411)),
    (Chain::M13, 30, "drop 20000 104", 4_601, (574, 863)),
    (Chain::C13, 30, "drop 20000 104", 4_605, (574, 863)),
];

#[test]
fn leaves_rejoin_their_patterns(rt: HostRuntime) -> Result<(), Fail> {
    let alloc = rt.alloc();
    for (chain, frames, script, least, places) in CASES {
        let clock = Schedule::from_ppm(alloc, chain.levels(), frames, Bias::Mixed)?;
        let lists = patterns(alloc, chain, 9_000)?;
        let (line, _left) = sent(alloc, chain, &clock, None, lists.clone()?)?;
        let line = bent(alloc, &line, script)?;
        for (got, list) in received(alloc, chain, &line)?.iter().zip(lists.iter()) {
            assert!(rt; least <= got.len(), "{chain:?}");
            assert!(rt; rejoins(got, list, places), "{chain:?}");
        }
    }
    Ok(())
}
