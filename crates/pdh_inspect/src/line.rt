//! The inspection of a chain's line.

ghost use Rattle.std.specs.Prelude.{◌≡◌, ◌<◌, ◌≤◌, ◌^◌, ◌⊎◌, map, IsTrue, IfOk, IfErr, IsErrOf};
ghost use Rattle.pdh_inspect.specs.declared.seen.LineStop.TheVariants.{Memory as StopMemory, Failed as StopFailed};
ghost use Rattle.pdh_watch.specs.Monitors.{SawEach};
ghost use Rattle.pdh_chain.specs.Chains.{shapes_of};
ghost use Rattle.pdh_chain.specs.Demuxes.{top_delivered};
ghost use Rattle.pdh_chain.specs.declared.stop.DemuxStop.TheVariants.{Memory, ReadFailed};
ghost use Rattle.pdh_inspect.specs.Seen.{line_bits_events, SeesLine, SeesAll, IsLineStop, faults_seen};

use crate::line_port::LinePort;
use crate::seen::{LineStop, Seen};
use pdh_chain::{Chain, DemuxStop};
use pdh_demux::demux;
use pdh_edge::{Feed, Port};
use pdh_watch::{Members, Monitor, Watch};
use std::alloc::Global;
use std::mem;

/// What was seen of a chain's line.
#[derive(Clone, Copy, Debug, PartialEq, Eq)]
pub struct LineSeen {
    /// The delivered frames of the top.
    pub frames: u64,
    /// The events. At `u64::MAX` the count stands.
    pub events: u64,
}

// Why a line isn't seen to its end that has its bits, and whose receivers put nothing that fails.
fn line_stop(stop: DemuxStop) -> LineStop
    requires { (stop ≡ Memory) ⊎ (stop ≡ ReadFailed) }
    ensures memory { stop ≡ Memory → result ≡ StopMemory }
    ensures failed { stop ≡ ReadFailed → result ≡ StopFailed }
{
    match stop {
        DemuxStop::Memory => LineStop::Memory,
        _ => LineStop::Failed,
    }
}

// Shows each event of a chain's line to a watch, and answers how many frames of the top are delivered.
fn watch_line<F: Feed, W: Watch>(
    alloc: Global,
    chain: Chain,
    bits: u64,
    port: &mut LinePort<F>,
    watch: &mut W,
) -> Result<u64, LineStop>
    requires few { bits < 2 ^ 63 }
    requires fresh { ⟦<LinePort<F> as Port>⟧.fresh port.old }
    requires line { IsTrue ((F.inputs port.old.feed).holds 0) }
    requires whole { bits ≤ (F.inputs port.old.feed).left 0 }
    ensures fed { F.fed port.old.feed port.new.feed }
    ensures faults { F.feed_faults port.new.feed ≡ faults_seen result (F.feed_faults port.old.feed) }
    ensures unread { IsErrOf result StopFailed → F.unread port.new.feed 0 }
    ensures ok { IfOk result (λ frames. SeesAll (λ given. W.saw watch.old (line_bits_events chain given) watch.new
        × (frames ≡ top_delivered (shapes_of chain) given)) bits (F.inputs port.old.feed) (F.inputs port.new.feed)) }
    ensures err { IfErr result (IsLineStop (λ given. W.saw watch.old (line_bits_events chain given) watch.new)
        (watch.new ≡ watch.old) bits (F.inputs port.old.feed) (F.inputs port.new.feed)) }
{
    match demux(alloc, chain, bits, port, watch) {
        Ok(frames) => Ok(frames),
        // The line has its bits, and no put fails.
        Err(stop) => Err(line_stop(stop)),
    }
}

/// Shows each event of a chain's line, which has so many bits in list 0 of the feed, to each monitor, in order, and answers how
/// many frames of the top are delivered and how many events there are. Where memory is wanting no monitor has seen any; where
/// the feed fails each has seen those of the bits that came before, and no call came since.
pub fn inspect_line<F: Feed, M: Monitor>(
    alloc: Global,
    chain: Chain,
    bits: u64,
    feed: F,
    monitors: &mut Vec<M>,
) -> Seen<F, LineSeen>
    requires few { bits < 2 ^ 63 }
    requires line { IsTrue ((F.inputs feed).holds 0) }
    requires whole { bits ≤ (F.inputs feed).left 0 }
    ensures fed { F.fed feed result.feed }
    ensures faults { F.feed_faults result.feed ≡ faults_seen result.result (F.feed_faults feed) }
    ensures unread { IsErrOf result.result StopFailed → F.unread result.feed 0 }
    ensures ok { let old = map M.state monitors.old.items in let new = map M.state monitors.new.items in
        IfOk result.result (λ seen. SeesAll (λ given. SeesLine chain given old new seen)
        bits (F.inputs feed) (F.inputs result.feed)) }
    ensures err { let old = map M.state monitors.old.items in let new = map M.state monitors.new.items in
        IfErr result.result (IsLineStop (λ given. SawEach old (line_bits_events chain given) new) (new ≡ old)
        bits (F.inputs feed) (F.inputs result.feed)) }
{
    let mut port = LinePort::new(feed);
    let mut members = Members::new(mem::replace(monitors, Vec::new(alloc)));
    let ended = watch_line(alloc, chain, bits, &mut port, &mut members);
    let events = members.count();
    *monitors = members.into_list();
    let feed = port.into_feed();
    match ended {
        Ok(frames) => Seen {
            feed,
            result: Ok(LineSeen { frames, events }),
        },
        Err(stop) => Seen {
            feed,
            result: Err(stop),
        },
    }
}
