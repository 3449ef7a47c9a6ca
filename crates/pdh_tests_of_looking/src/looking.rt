//! What recordings of chains are.

use crate::lines::line_of;
use pdh_candidates::{Candidate, Word};
use pdh_chain::Chain;
use pdh_ds1::Frame1;
use pdh_judging::Judged;
use pdh_looking::{Found, Level, LevelFound, Looked, Nearest, look, top_stands};
use pdh_readings::{BitOrder, all_orders};
use std::alloc::Global;
use std::test::Fail;

// The most significant bit first, not inverted.
const PLAIN: BitOrder = BitOrder {
    lsb_first: false,
    inverted: false,
};

// What is found of a line from a bit on, in all orders.
fn found(alloc: Global, line: &[u8], from: u32) -> Result<Found, Fail> {
    match look(alloc, line, from, 1 << 20, &all_orders())? {
        Looked::Found(found) => Ok(found),
        Looked::Nothing(_) => Err(Fail::new("nothing found")),
    }
}

// What is nearest to a line of which nothing is found.
fn nearest(alloc: Global, line: &[u8]) -> Result<Vec<Nearest>, Fail> {
    match look(alloc, line, 0, 1 << 20, &all_orders())? {
        Looked::Found(_) => Err(Fail::new("found")),
        Looked::Nothing(nearest) => Ok(nearest),
    }
}

#[test]
fn each_chain_is_found(rt: HostRuntime) -> Result<(), Fail> {
    let alloc = rt.alloc();
    let cases = [
        (Chain::E14, 80, Word::E14),
        (Chain::E24, 40, Word::E24),
        (Chain::E34, 12, Word::E34),
        (Chain::E13, 40, Word::E13),
        (Chain::E23, 12, Word::E23),
        (Chain::C13, 40, Word::C13),
        (Chain::M13, 40, Word::M13),
        (Chain::M23, 12, Word::M23),
        (Chain::E12, 12, Word::E12),
        (Chain::M12, 12, Word::M12),
    ];
    for (chain, frames, word) in cases {
        let line = line_of(alloc, chain, frames)?;
        let found = found(alloc, &line, 3)?;
        assert!(rt;
            found.candidate == Candidate { word, order: PLAIN },
            "{chain:?}"
        );
        assert!(rt; found.also.len() == 0, "{chain:?}");
    }
    Ok(())
}

// So many octets of a payload.
fn payload(alloc: Global, len: usize) -> Result<Vec<u8>, Fail> {
    let mut octets = Vec::new(alloc);
    for place in 0..len {
        octets.push((place.wrapping_mul(place) % 251) as u8)?;
    }
    Ok(octets)
}

// A superframe of 12 frames that is inverted is one that begins six frames later.
#[test]
fn each_framed_stream_is_found(rt: HostRuntime) -> Result<(), Fail> {
    let alloc = rt.alloc();
    let octets = payload(alloc, 11_520)?;
    let cases = [
        (pdh_e1::pack(alloc, &payload(alloc, 9_920)?)?, Word::E1, 0),
        (
            pdh_ds1::pack(alloc, Frame1::Extended, &octets)?,
            Word::Ds1Esf,
            0,
        ),
        (
            pdh_ds1::pack(alloc, Frame1::Super, &octets)?,
            Word::Ds1Sf,
            1,
        ),
    ];
    for (line, word, others) in cases {
        let found = found(alloc, &line, 5)?;
        assert!(rt; found.candidate == Candidate { word, order: PLAIN });
        assert!(rt; found.also.len() == others, "{word:?}");
    }
    Ok(())
}

#[test]
fn superframes_of_zeros_are_alike(rt: HostRuntime) -> Result<(), Fail> {
    let alloc = rt.alloc();
    let zeros = vec![in alloc; 0u8; 11_520]?;
    let line = pdh_ds1::pack(alloc, Frame1::Super, &zeros)?;
    assert!(rt; found(alloc, &line, 0)?.alike);
    Ok(())
}

// The other order of the bits of each byte, and every bit inverted.
fn turned(alloc: Global, line: &[u8]) -> Result<Vec<u8>, Fail> {
    let mut bytes = Vec::new(alloc);
    for byte in line {
        bytes.push(!byte.reverse_bits())?;
    }
    Ok(bytes)
}

#[test]
fn bits_are_read_in_their_order(rt: HostRuntime) -> Result<(), Fail> {
    let alloc = rt.alloc();
    let line = turned(alloc, &line_of(alloc, Chain::E12, 12)?)?;
    let order = BitOrder {
        lsb_first: true,
        inverted: true,
    };
    let candidate = Candidate {
        word: Word::E12,
        order,
    };
    assert!(rt; found(alloc, &line, 0)?.candidate == candidate);
    match look(alloc, &line, 0, 1 << 20, &[PLAIN])? {
        Looked::Found(_) => Err(Fail::new("found in another order")),
        Looked::Nothing(_) => Ok(()),
    }
}

// The three frames that confirm an alignment aren't judged.
#[test]
fn frames_of_each_level_are_told(rt: HostRuntime) -> Result<(), Fail> {
    let alloc = rt.alloc();
    let line = line_of(alloc, Chain::E13, 40)?;
    let found = found(alloc, &line, 0)?;
    assert!(rt; found.levels.len() == 2);
    let top = LevelFound {
        level: Level::E3,
        nodes: 1,
        stand: 1,
        judged: 37,
        right: 37,
    };
    assert!(rt; found.levels[0] == top);
    assert!(rt; (found.levels[1].nodes, found.levels[1].stand) == (4, 4));
    assert!(rt; !found.alike);
    Ok(())
}

#[test]
fn nothing_is_found_in_too_few_frames(rt: HostRuntime) -> Result<(), Fail> {
    let alloc = rt.alloc();
    let line = line_of(alloc, Chain::E12, 7)?;
    let list = nearest(alloc, &line)?;
    assert!(rt; list.len() > 0);
    let first = Nearest {
        level: Level::E2,
        order: PLAIN,
        judged: Judged {
            frames: 4,
            right: 4,
        },
    };
    assert!(rt; list[0] == first);
    Ok(())
}

#[test]
fn nothing_is_near_to_constant_bits(rt: HostRuntime) -> Result<(), Fail> {
    let alloc = rt.alloc();
    for byte in [0x00, 0xFF] {
        let line = vec![in alloc; byte; 20_000]?;
        assert!(rt; nearest(alloc, &line)?.len() == 0);
    }
    Ok(())
}

#[test]
fn a_top_stands_or_falls(rt: HostRuntime) -> Result<(), Fail> {
    let alloc = rt.alloc();
    let line = line_of(alloc, Chain::E12, 12)?;
    for (word, stands) in [(Word::E12, true), (Word::E13, false)] {
        assert!(rt; top_stands(alloc, &line, 0, 1 << 20, word, PLAIN)? == stands);
    }
    Ok(())
}
