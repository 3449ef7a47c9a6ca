//! The inspection of a framed 2048 kbit/s line.

ghost use Rattle.std.specs.Prelude.{◌≡◌, ◌<◌, ◌≤◌, Bool, List, [], ◌++◌, map, IsTrue, IfOk, IfErr, IsOk, OnOk, OnErr, IsErrOf};
ghost use Rattle.pdh_edge.specs.Ports.{HasCause};
ghost use Rattle.pdh_g706.specs.View.{StandsFor};
ghost use Rattle.pdh_g706.specs.Tracking.{multiframes_in, counted};
ghost use Rattle.pdh_g706.specs.Events.{e1_events};
ghost use Rattle.pdh_watch.specs.Monitors.{SawEach};
ghost use Rattle.pdh_inspect.specs.declared.seen.LineStop.TheVariants.{Failed as StopFailed};
ghost use Rattle.pdh_inspect.specs.Seen.{SeesFramed, SeesAll, SeesFewer, IsLineStop, faults_seen};

use crate::line_port::LinePort;
use crate::seen::{LineStop, Seen};
use pdh_edge::{Failed, Feed, take_bits};
use pdh_g706::E1Align;
use pdh_packed::Packed;
use pdh_watch::{Members, Monitor, Watch};
use std::alloc::Global;
use std::mem;

// The most bits of a line that are given to a machine at once.
const MOST_BITS: usize = 32768;

/// What was seen of a framed 2048 kbit/s line.
#[derive(Clone, Copy, Debug, PartialEq, Eq)]
pub struct FramedSeen {
    /// The delivered multiframes. At `u64::MAX` the count stands.
    pub multiframes: u64,
    /// The events. At `u64::MAX` the count stands.
    pub events: u64,
}

// Gives a machine these bits, for a watch that sees their events. What it puts is let go, so that no put fails.
fn push_all<F: Feed, W: Watch>(
    align: &mut E1Align,
    bits: &Packed,
    port: &mut LinePort<F>,
    watch: &mut W,
) -> Result<(), Failed>
    requires { (line : List Bool) × StandsFor align.old line }
    ensures done { IsOk result }
    ensures stands { (line : List Bool) → StandsFor align.old line → StandsFor align.new (line ++ bits.now.bits) }
    ensures seen { (first : W) (line : List Bool) → StandsFor align.old line → W.saw first (e1_events line) watch.old
        → W.saw first (e1_events (line ++ bits.now.bits)) watch.new }
    ensures feed { port.new.feed ≡ port.old.feed }
{
    align.take(bits, port, watch)
}

// Gives a machine that has taken no bit so many bits of the port's list 0; `buffer` holds those that were taken last.
fn push_line<F: Feed, W: Watch>(
    align: &mut E1Align,
    bits: u64,
    buffer: &mut Packed,
    port: &mut LinePort<F>,
    watch: &mut W,
) -> Result<(), Failed>
    requires stands { StandsFor align.old [] }
    requires room { 0 < buffer.old.capacity }
    requires line { IsTrue ((F.inputs port.old.feed).holds 0) }
    requires whole { bits ≤ (F.inputs port.old.feed).left 0 }
    ensures fed { F.fed port.old.feed port.new.feed }
    ensures faults { HasCause (F.feed_faults port.old.feed) (F.feed_faults port.new.feed) result }
    ensures unread { OnErr result (F.unread port.new.feed 0) }
    ensures ok { OnOk result (SeesAll (λ given. StandsFor align.new given × W.saw watch.old (e1_events given) watch.new)
        bits (F.inputs port.old.feed) (F.inputs port.new.feed)) }
    ensures err { OnErr result (SeesFewer (λ given. W.saw watch.old (e1_events given) watch.new)
        bits (F.inputs port.old.feed) (F.inputs port.new.feed)) }
{
    let mut pushed = 0;
    while pushed < bits {
        buffer.clear();
        let most = (bits - pushed).min(buffer.capacity() as u64) as usize;
        let taken = take_bits(port, 0, most, buffer);
        // The bits that came before a failure are seen too.
        push_all(align, buffer, port, watch)?;
        taken?;
        pushed += most as u64;
    }
    Ok(())
}

// Shows each event of a framed line to a watch, and answers how many multiframes are delivered.
fn watch_framed<F: Feed, W: Watch>(
    alloc: Global,
    bits: u64,
    port: &mut LinePort<F>,
    watch: &mut W,
) -> Result<u64, LineStop>
    requires line { IsTrue ((F.inputs port.old.feed).holds 0) }
    requires whole { bits ≤ (F.inputs port.old.feed).left 0 }
    ensures fed { F.fed port.old.feed port.new.feed }
    ensures faults { F.feed_faults port.new.feed ≡ faults_seen result (F.feed_faults port.old.feed) }
    ensures unread { IsErrOf result StopFailed → F.unread port.new.feed 0 }
    ensures ok { IfOk result (λ multiframes. SeesAll (λ given. W.saw watch.old (e1_events given) watch.new
        × (multiframes ≡ counted (multiframes_in given))) bits (F.inputs port.old.feed) (F.inputs port.new.feed)) }
    ensures err { IfErr result (IsLineStop (λ given. W.saw watch.old (e1_events given) watch.new) (watch.new ≡ watch.old)
        bits (F.inputs port.old.feed) (F.inputs port.new.feed)) }
{
    let Ok(mut align) = E1Align::open(alloc) else {
        return Err(LineStop::Memory);
    };
    let Ok(mut buffer) = Packed::open(alloc, MOST_BITS) else {
        return Err(LineStop::Memory);
    };
    match push_line(&mut align, bits, &mut buffer, port, watch) {
        Ok(()) => Ok(align.multiframes()),
        Err(Failed) => Err(LineStop::Failed),
    }
}

/// Shows each event of a framed 2048 kbit/s line, which has so many bits in list 0 of the feed, to each monitor, in order, and
/// answers how many multiframes are delivered and how many events there are. Where memory is wanting no monitor has seen any;
/// where the feed fails each has seen those of the bits that came before, and no call came since.
pub fn inspect_framed<F: Feed, M: Monitor>(
    alloc: Global,
    bits: u64,
    feed: F,
    monitors: &mut Vec<M>,
) -> Seen<F, FramedSeen>
    requires line { IsTrue ((F.inputs feed).holds 0) }
    requires whole { bits ≤ (F.inputs feed).left 0 }
    ensures fed { F.fed feed result.feed }
    ensures faults { F.feed_faults result.feed ≡ faults_seen result.result (F.feed_faults feed) }
    ensures unread { IsErrOf result.result StopFailed → F.unread result.feed 0 }
    ensures ok { let old = map M.state monitors.old.items in let new = map M.state monitors.new.items in
        IfOk result.result (λ seen. SeesAll (λ given. SeesFramed given old new seen)
        bits (F.inputs feed) (F.inputs result.feed)) }
    ensures err { let old = map M.state monitors.old.items in let new = map M.state monitors.new.items in
        IfErr result.result (IsLineStop (λ given. SawEach old (e1_events given) new) (new ≡ old)
        bits (F.inputs feed) (F.inputs result.feed)) }
{
    let mut port = LinePort::new(feed);
    let mut members = Members::new(mem::replace(monitors, Vec::new(alloc)));
    let ended = watch_framed(alloc, bits, &mut port, &mut members);
    let events = members.count();
    *monitors = members.into_list();
    let feed = port.into_feed();
    match ended {
        Ok(multiframes) => Seen {
            feed,
            result: Ok(FramedSeen {
                multiframes,
                events,
            }),
        },
        Err(stop) => Seen {
            feed,
            result: Err(stop),
        },
    }
}
