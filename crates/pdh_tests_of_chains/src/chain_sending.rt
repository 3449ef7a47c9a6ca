//! Lines of lists that hold no bit more than is taken, and lines that send a code.

ghost use Rattle.std.specs.Prelude.{◌≡◌, ◌<◌, ◌≤◌, length, IfOk, IfSome};
ghost use Rattle.pdh_chain.specs.Chains.{leaves_of, levels_of};
ghost use Rattle.pdh_clock.specs.Contents.{frame_count};

use pdh_chain::{Chain, leaves};
use pdh_clock::{Bias, Schedule};
use pdh_edge::{Feed, MemPort};
use pdh_mux::mux;
use pdh_packed::Packed;
use pdh_shape::TOP;
use std::alloc::{AllocError, Global};
use std::test::Fail;

/// So many bits for each leaf, of each another pattern.
pub fn patterns(alloc: Global, chain: Chain, bits: usize) -> Result<Vec<Vec<bool>>, AllocError>
    ensures { IfOk result (λ lists. length lists.items ≡ leaves_of chain) }
{
    let mut lists = Vec::new(alloc);
    for leaf in 0..leaves(chain) {
        let step = leaf as usize % 7 + 2;
        let mut list = vec![in alloc; false; bits]?;
        for place in 0..bits {
            list[place] = place % step == 0 || place % 11 < 4;
        }
        lists.push(list)?;
    }
    Ok(lists)
}

/// The same lists in packed words.
pub fn packed(alloc: Global, lists: &[Vec<bool>]) -> Result<Vec<Packed>, AllocError>
    ensures { IfOk result (λ packed. length packed.items ≡ length lists.now) }
{
    let mut packed = Vec::new(alloc);
    for list in lists {
        packed.push(Packed::of_bits(alloc, list)?)?;
    }
    Ok(packed)
}

// What a run of `mux` over a schedule makes of these lists, with this code sent where its top has a channel for it: its line, if it ends well, and how many
// bits it leaves of each list.
pub fn sent(
    alloc: Global,
    chain: Chain,
    clock: &Schedule,
    feac: Option<u8>,
    lists: Vec<Vec<bool>>,
) -> Result<(Vec<bool>, Vec<u64>), Fail>
    requires code { IfSome feac (λ code. code < 64) }
    requires levels { clock.now.levels ≡ levels_of chain }
    requires lists { length lists.items ≡ leaves_of chain }
    ensures { IfOk result (λ sent. length sent.1.items ≡ leaves_of chain) }
{
    let mut port = MemPort::open(alloc, packed(alloc, &lists)?, 1)?;
    port.room(0, 200_000)?;
    if mux(alloc, chain, clock, clock.frames(&TOP), feac, &mut port).is_err() {
        return Err(Fail::new("mux stopped"));
    }
    let mut left = Vec::new(alloc);
    for leaf in 0..leaves(chain) {
        left.push(port.left(leaf))?;
    }
    Ok((port.output(0).to_bits(alloc)?, left))
}

// Takes so many bits off the ends of the lists.
fn shorten(lists: &mut Vec<Vec<bool>>, by: &[u64])
    requires { length by.now ≡ length lists.old.items }
    ensures { length lists.new.items ≡ length lists.old.items }
{
    for leaf in 0..by.len() {
        let list = &mut lists[leaf];
        let len = list.len().saturating_sub(by[leaf] as usize);
        list.truncate(len);
    }
}

// The lists need no bit more than the frames take, which is less than what enters where a node below the top is within a frame. The line
// is the same.
#[test]
fn lists_without_a_bit_more_are_enough(rt: HostRuntime) -> Result<(), Fail> {
    let cases = [
        (Chain::E13, 3),
        (Chain::E24, 2),
        (Chain::E14, 3),
        (Chain::M13, 3),
        (Chain::C13, 18),
    ];
    for (chain, frames) in cases {
        let alloc = rt.alloc();
        let clock = Schedule::from_ppm(alloc, chain.levels(), frames, Bias::Mixed)?;
        let (line, left) = sent(
            alloc,
            chain,
            &clock,
            Some(5),
            patterns(alloc, chain, 4_000)?,
        )?;
        assert!(rt; left[0] < 4_000);
        let taken = 4_000 - left[0];
        assert!(rt; u128::from(taken) < clock.entered(0, frames));

        let mut lists = patterns(alloc, chain, 4_000)?;
        shorten(&mut lists, &left);
        let (same, none) = sent(alloc, chain, &clock, Some(5), lists)?;
        assert!(rt; same == line, "{chain:?}");
        for count in none {
            assert!(rt; count == 0, "{chain:?}");
        }
    }
    Ok(())
}

// A code changes the line's bits of the channel alone, one in each frame: those of its word, eight ones, a zero, the code, and
// a zero.
#[test]
fn a_code_is_sent_in_each_frame(rt: HostRuntime) -> Result<(), Fail> {
    let alloc = rt.alloc();
    let chain = Chain::C13;
    let clock = Schedule::from_ppm(alloc, chain.levels(), 18, Bias::Nominal)?;
    let (idle, _left) = sent(alloc, chain, &clock, None, patterns(alloc, chain, 4_000)?)?;
    let (coded, _left) = sent(
        alloc,
        chain,
        &clock,
        Some(5),
        patterns(alloc, chain, 4_000)?,
    )?;
    assert!(rt; idle.len() == coded.len());
    let mut changed = Vec::new(alloc);
    for (place, (bit, other)) in idle.iter().zip(coded.iter()).enumerate() {
        if bit != other {
            changed.push(place)?;
        }
    }
    let frames = [8, 9, 10, 11, 13, 15];
    assert!(rt; changed.len() == frames.len());
    for (place, frame) in changed.iter().zip(frames) {
        assert!(rt; *place == frame * 4_760 + 510);
    }
    Ok(())
}
