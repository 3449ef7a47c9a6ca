//! Lines that a feed gives to their ends, and lines in which it fails.

ghost use Rattle.std.specs.Prelude.{◌≡◌, ◌≤◌, IsTrue, IfOk};
ghost use Rattle.std.proofs.Common.{refl, ◌∙◌, arith, ap};
ghost use Rattle.pdh_edge.specs.MemLists.{length_of};

use pdh_chain::Chain;
use pdh_edge::{Feed, FeedStop, MemPort};
use pdh_inspect::{FramedSeen, LineSeen, LineStop, inspect_framed, inspect_line};
use pdh_packed::Packed;
use pdh_watch::{Counter, Kind, Monitor};
use std::alloc::{AllocError, Global};
use std::test::Fail;

// Gives so many bits more of its lists, and then fails.
#[derive(Drop)]
struct Faulty {
    lists: MemPort,
    good: u64,
    faults: u64,
}

impl Feed for Faulty {
    ghost inputs = { λ f. ⟦<MemPort as Feed>⟧.inputs f.lists };

    ghost feed_faults = { λ f. f.faults };

    ghost waits = { λ f k. 0 };

    ghost fed = { λ a b. ((⟦<MemPort as Feed>⟧.inputs b.lists).holds ≡ (⟦<MemPort as Feed>⟧.inputs a.lists).holds) × (a.faults ≤ b.faults) };

    ghost unread = { λ f k. f.good ≡ 0 };

    ghost fed_same = { λ a. (refl, Prim.omega arith) };

    ghost fed_join = { λ a b c p q. (q.0 ∙ p.0, Prim.omega (arith, p.1, q.1)) };

    ghost fed_holds = { λ a b p. p.0 };

    ghost fed_counts = { λ a b p. p.1 };

    ghost left_told = { λ a k bits h. ap length_of h };

    ghost waits_left = { λ a k. Prim.omega arith };

    fn feed_faults(&self) -> u64 {
        self.faults
    }

    fn bit(&mut self, leaf: u32) -> Result<bool, FeedStop> {
        if self.good == 0 {
            self.faults = self.faults.saturating_add(1);
            return Err(FeedStop::Failed);
        }
        self.good -= 1;
        self.lists.bit(leaf)
    }

    fn left(&self, leaf: u32) -> u64 {
        self.lists.left(leaf)
    }

    fn waiting(&self, _leaf: u32) -> u64 {
        0
    }
}

// So many ones, of which so many come.
fn ones(alloc: Global, bits: u32, good: u64) -> Result<Faulty, AllocError>
    ensures holds { IfOk result (λ feed. IsTrue ((⟦<Faulty as Feed>⟧.inputs feed).holds 0)) }
    ensures left { IfOk result (λ feed. (⟦<Faulty as Feed>⟧.inputs feed).left 0 ≡ bits) }
{
    let list = vec![in alloc; true; bits as usize]?;
    let mut lists = Vec::new(alloc);
    lists.push(Packed::of_bits(alloc, &list)?)?;
    Ok(Faulty {
        lists: MemPort::open(alloc, lists, 0)?,
        good,
        faults: 0,
    })
}

// A counter of what begins an AIS.
fn counters(alloc: Global) -> Result<Vec<Counter>, AllocError> {
    let mut monitors = Vec::new(alloc);
    monitors.push(Counter::new(Kind::AIS_ON))?;
    Ok(monitors)
}

// How many events the counter saw.
fn hits(monitors: &[Counter]) -> Option<u64> {
    monitors.first().map(|counter| counter.hits())
}

// A framed line of ones has AIS from its 512th bit on.
#[test]
fn framed_ones(rt: HostRuntime) -> Result<(), Fail> {
    let whole = Ok(FramedSeen {
        multiframes: 0,
        events: 1,
    });
    let cases = [
        (1_000, 1_000, whole, 1, 0),
        (1_000, 999, Err(LineStop::Failed), 1, 1),
        (1_000, 512, Err(LineStop::Failed), 1, 1),
        (1_000, 511, Err(LineStop::Failed), 0, 1),
        (512, 512, whole, 1, 0),
    ];
    for (bits, good, end, events, faults) in cases {
        let feed = ones(rt.alloc(), bits, good)?;
        let mut monitors = counters(rt.alloc())?;
        let seen = inspect_framed(rt.alloc(), u64::from(bits), feed, &mut monitors);
        let found = (seen.result, hits(&monitors), seen.feed.feed_faults());
        assert!(rt; found == (end, Some(events), faults), "{bits} {good}");
    }
    Ok(())
}

// A line of 8448 kbit/s of ones has AIS from its 848th bit on.
#[test]
fn line_of_ones(rt: HostRuntime) -> Result<(), Fail> {
    let whole = Ok(LineSeen {
        frames: 0,
        events: 1,
    });
    let cases = [
        (2_000, 2_000, whole, 1, 0),
        (2_000, 848, Err(LineStop::Failed), 1, 1),
        (2_000, 847, Err(LineStop::Failed), 0, 1),
    ];
    for (bits, good, end, events, faults) in cases {
        let feed = ones(rt.alloc(), bits, good)?;
        let mut monitors = counters(rt.alloc())?;
        let seen = inspect_line(rt.alloc(), Chain::E12, u64::from(bits), feed, &mut monitors);
        let found = (seen.result, hits(&monitors), seen.feed.feed_faults());
        assert!(rt; found == (end, Some(events), faults), "{bits} {good}");
    }
    Ok(())
}
