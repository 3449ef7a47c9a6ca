//! What callers may rely on of inspections of lines.

ghost use Rattle.std.specs.Prelude.{◌≡◌, ◌≤◌, ◌<◌, ◌-◌, ◌^◌, min, map, Bool, List, length, IsTrue, IfOk, Err};
ghost use Rattle.pdh_edge.specs.Ports.{Takes, for_leaf};
ghost use Rattle.pdh_chain.specs.Chains.{shapes_of};
ghost use Rattle.pdh_chain.specs.Demuxes.{top_delivered};
ghost use Rattle.pdh_events.specs.Chain.{chain_events};
ghost use Rattle.pdh_watch.specs.declared.event.Event.{Event};
ghost use Rattle.pdh_watch.specs.Monitors.{SawEach};
ghost use Rattle.pdh_inspect.specs.declared.seen.LineStop.TheVariants.{Memory, Failed};

use pdh_chain::Chain;
use pdh_edge::Feed;
use pdh_inspect::{FramedSeen, LineSeen, Seen, inspect_framed, inspect_line};
use pdh_watch::Monitor;
use std::alloc::Global;

/// The frames that are told are those that the top delivers, and the events are those of the line.
pub fn events_told_as_frames<F: Feed, M: Monitor>(
    alloc: Global,
    chain: Chain,
    bits: u64,
    feed: F,
    monitors: &mut Vec<M>,
) -> Seen<F, LineSeen>
    requires few { bits < 2 ^ 63 }
    requires line { IsTrue ((F.inputs feed).holds 0) }
    requires whole { bits ≤ (F.inputs feed).left 0 }
    ensures { IfOk result.result (λ seen. (line : List Bool) × Takes (for_leaf 0 line) (F.inputs feed) (F.inputs result.feed)
        × (seen.frames ≡ top_delivered (shapes_of chain) line)
        × (seen.events ≡ min (length (chain_events (shapes_of chain) line)) (2 ^ 64 - 1))) }
{
    inspect_line(alloc, chain, bits, feed, monitors)
}

/// Where the feed failed all monitors are there still, and each saw the same events.
pub fn monitors_lost_where_the_feed_failed<F: Feed, M: Monitor>(
    alloc: Global,
    bits: u64,
    feed: F,
    monitors: &mut Vec<M>,
) -> Seen<F, FramedSeen>
    requires line { IsTrue ((F.inputs feed).holds 0) }
    requires whole { bits ≤ (F.inputs feed).left 0 }
    ensures { result.result ≡ Err Failed
        → (events : List Event) × SawEach (map M.state monitors.old.items) events (map M.state monitors.new.items) }
{
    inspect_framed(alloc, bits, feed, monitors)
}

/// Where memory is wanting no monitor has seen an event.
pub fn memory_wanting_after_events_were_shown<F: Feed, M: Monitor>(
    alloc: Global,
    bits: u64,
    feed: F,
    monitors: &mut Vec<M>,
) -> Seen<F, FramedSeen>
    requires line { IsTrue ((F.inputs feed).holds 0) }
    requires whole { bits ≤ (F.inputs feed).left 0 }
    ensures { result.result ≡ Err Memory → map M.state monitors.new.items ≡ map M.state monitors.old.items }
{
    inspect_framed(alloc, bits, feed, monitors)
}
