//! Claims on events and on who sees them.

ghost use Rattle.std.specs.Prelude.{◌≡◌, false, true, codes, length, option_map, take, Some};
ghost use Rattle.pdh_watch.specs.Monitors.{has_kinds};
ghost use Rattle.pdh_watch.specs.declared.kind.TheConstants.Kind.{ALARM_OFF};

use bitflags::Flags;
use pdh_watch::{Counter, Event, First, Kind, Latch, Members, Monitor, Watch};

/// An event that monitors see is counted once.
pub fn events_counted_twice<M: Monitor>(list: Vec<M>, event: &Event) -> u64
    ensures { result ≡ 1 }
{
    let mut members = Members::new(list);
    members.note(event);
    members.count()
}

/// A far end block error and a code of the far end's channel are events of two kinds.
pub fn febe_and_feac_are_one() -> bool
    ensures { result ≡ false }
{
    Kind::FEBE == Kind::FEAC
}

/// Of two events that it wants, a monitor of the first one keeps the first.
pub fn first_keeps_the_last(kind: Kind, one: &Event, two: &Event) -> First
    requires { has_kinds kind one.now.kind ≡ true }
    ensures { (⟦<First as Monitor>⟧.state result).first ≡ Some one.now }
{
    let mut first = First::new(kind);
    first.see(one);
    first.see(two);
    first
}

/// The end of an alarm leaves no alarm open where none was.
pub fn latch_counts_below_0(end: &Event) -> Latch
    requires { end.now.kind ≡ ALARM_OFF }
    ensures { (⟦<Latch as Monitor>⟧.state result).alarms ≡ 0 }
{
    let mut latch = Latch::new();
    latch.see(end);
    latch
}

/// A latch with no open alarm says so in 14 bytes.
pub fn line_of_161_bytes(out: &mut [u8]) -> usize
    requires { length out.old ≡ 160 }
    ensures len { result ≡ 14 }
    ensures text { take result out.new ≡ codes "alarms open: 0" }
{
    Latch::new().line(out)
}

/// The kind that is named "lost" is that of a lost alignment.
pub fn lost_named_aligned() -> Option<Kind>
    ensures { option_map (λ kind. kind.0) result ≡ Some 2 }
{
    Kind::from_name("lost")
}

/// Monitors are handed back in their order.
pub fn monitors_handed_back_in_reverse<M: Monitor>(list: Vec<M>) -> Vec<M>
    ensures { result ≡ list }
{
    Members::new(list).into_list()
}

/// The names of two kinds are joined by a plus sign.
pub fn names_joined_by_commas(out: &mut [u8]) -> usize
    requires { length out.old ≡ 160 }
    ensures { take result out.new ≡ codes "aligned+lost: 0" }
{
    Counter::new(Kind::ALIGNED.union(Kind::LOST)).line(out)
}

/// An event of a kind that isn't wanted is no hit.
pub fn unwanted_events_are_hits(kind: Kind, event: &Event) -> u64
    requires { has_kinds kind event.now.kind ≡ false }
    ensures { result ≡ 0 }
{
    let mut counter = Counter::new(kind);
    counter.see(event);
    counter.hits()
}
