//! A multiplexer of leaves that give zeros.

ghost use Rattle.std.specs.Prelude.{◌≡◌, ◌<◌, ℕ, false, IsTrue, All, map, IfOk};
ghost use Rattle.pdh_eframes.specs.Plans.{e2};
ghost use Rattle.pdh_tx.specs.Meaning.{plan_in, IsNodeOf, HoldsAll, IsFresh};
ghost use Rattle.pdh_tests_of_chains.specs.FourLeaves.{four_leaves};
ghost use Rattle.pdh_tx.specs.Node.{node_meaning};

use pdh_chain::E2_LEVEL;
use pdh_clock::Schedule;
use pdh_edge::{Feed, MemPort};
use pdh_eframes::E2;
use pdh_packed::Packed;
use pdh_runs::Layout;
use pdh_shape::TOP;
use pdh_slips::{KeptSlips, NoSlips, SlipLog};
use pdh_tx::{Leaf, Node, Tx, TxStop};
use std::alloc::{AllocError, Global};
use std::rc::Rc;
use std::test::Fail;

// The leaves 0 to 3.
fn leaves(alloc: Global) -> Result<Vec<Leaf>, AllocError>
    ensures meaning { IfOk result (λ leaves. map ⟦<Leaf as Tx>⟧.meaning leaves.items ≡ four_leaves) }
    ensures fresh { IfOk result (λ leaves. All (IsFresh ⟦<Leaf as Tx>⟧.stands_at
        ⟦<Leaf as Tx>⟧.stands_for ⟦<Leaf as Tx>⟧.says ⟦<Leaf as Tx>⟧.is_stopped) leaves.items) }
{
    Ok(vec![in alloc; Leaf::new(0), Leaf::new(1), Leaf::new(2), Leaf::new(3)]?)
}

/// A multiplexer of the leaves 0 to 3.
pub fn node(alloc: Global) -> Result<Node<E2, Leaf>, AllocError>
    ensures meaning { IfOk result (λ node. ⟦<Node<E2, Leaf> as Tx>⟧.meaning node
        ≡ node_meaning e2 (record { depth = 0; first = 0; second = 0 })
        four_leaves) }
    ensures fresh { IfOk result (IsFresh ⟦<Node<E2, Leaf> as Tx>⟧.stands_at
        ⟦<Node<E2, Leaf> as Tx>⟧.stands_for ⟦<Node<E2, Leaf> as Tx>⟧.says
        ⟦<Node<E2, Leaf> as Tx>⟧.is_stopped) }
{
    let layout = Rc::new(alloc, Layout::open(alloc)?)?;
    Node::open(alloc, TOP, layout, leaves(alloc)?)
}

// A list of so many zeros.
fn zero_bits(alloc: Global, count: usize) -> Result<Packed, AllocError> {
    let mut bits = Packed::open(alloc, count)?;
    for _bit in 0..count {
        bits.push(false);
    }
    Ok(bits)
}

// A feed of zeros, as many as a frame with counts of 205 enters.
fn zeros(alloc: Global) -> Result<MemPort, AllocError>
    ensures { IfOk result (λ feed. (k : ℕ) → k < 4
        → IsTrue ((⟦<MemPort as Feed>⟧.inputs feed).holds k)) }
{
    let mut lists = Vec::new(alloc);
    lists.push(zero_bits(alloc, 253)?)?;
    lists.push(zero_bits(alloc, 253)?)?;
    lists.push(zero_bits(alloc, 253)?)?;
    lists.push(zero_bits(alloc, 253)?)?;
    MemPort::open(alloc, lists, 0)
}

/// Makes bits, up to so many or to the first stop, with a log for slips.
pub fn make_bits<T: Tx, F: Feed, G: SlipLog>(
    alloc: Global,
    tx: &mut T,
    clock: &Schedule,
    feed: &mut F,
    log: &mut G,
    most: u32,
) -> Result<(Vec<bool>, Option<TxStop>), AllocError>
    requires running { T.is_stopped tx.old ≡ false }
    requires lists { HoldsAll (T.meaning tx.old).leaves (F.inputs feed.old) }
    requires nodes { All (IsNodeOf clock.now.levels) (T.meaning tx.old).nodes }
    requires stands { (x : ℕ) × T.stands_at tx.old (plan_in clock.now G.takes) x }
{
    let mut line = Vec::new(alloc);
    for _made in 0..most {
        match tx.next(clock, feed, log) {
            Ok(bit) => line.push(bit)?,
            Err(stop) => return Ok((line, Some(stop))),
        }
    }
    Ok((line, None))
}

#[test]
fn frame_of_zeros(rt: HostRuntime) -> Result<(), Fail> {
    let alloc = rt.alloc();
    let clock = Schedule::read(alloc, &[E2_LEVEL], b"/ 1 205 205 205 205\n")?;
    let mut feed = zeros(alloc)?;
    let mut node = node(alloc)?;
    assert!(rt; node.fill(0) == 0);
    let (line, stop) = make_bits(alloc, &mut node, &clock, &mut feed, &mut NoSlips, 1000)?;
    assert!(rt; line.len() == 848);
    let ones = [0, 1, 2, 3, 5, 11];
    for (slot, bit) in line.iter().enumerate() {
        assert!(rt; *bit == ones.contains(&slot), "slot {slot}");
    }
    assert!(rt; stop == Some(TxStop::NoFrame { node: TOP }));
    assert!(rt; node.stopped());
    assert!(rt; node.fill(0) == 47);
    Ok(())
}

// There is one frame, and each list has the bits that enter with it and no more.
#[test]
fn tells_that_a_frame_meets_nothing(rt: HostRuntime) -> Result<(), Fail> {
    let alloc = rt.alloc();
    let clock = Schedule::read(alloc, &[E2_LEVEL], b"/ 1 205 205 205 205\n")?;
    let feed = zeros(alloc)?;
    let node = node(alloc)?;
    for (most, quiet) in [(1, 1), (848, 848), (849, 0)] {
        let plain = node.quiet::<MemPort, NoSlips>(&clock, &feed, most);
        let slipping = node.quiet::<MemPort, KeptSlips>(&clock, &feed, most);
        assert!(rt; plain == quiet, "of {most}");
        assert!(rt; slipping == quiet, "of {most}, where stores slip");
    }
    Ok(())
}
