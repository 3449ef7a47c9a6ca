//! Of the times of a state.

ghost use Rattle.std.specs.Prelude.{◌≡◌, ◌+◌, ◌-◌, ◌^◌, ◌<◌, ◌≤◌};

use pdh_spans::{SpanSum, Spans};

/// A state that begins while it stands has stood from its first beginning.
pub fn begins_anew_while_it_stands(from: u64, again: u64, end: u64) -> SpanSum
    ensures { result.bits ≡ end - from }
{
    let mut spans = Spans::new();
    spans.begin(from);
    spans.begin(again);
    spans.sum(end)
}

/// Of two times, the first of which is longer, that one is the longest.
pub fn longest_is_the_last(from: u64, to: u64, again: u64, end: u64) -> SpanSum
    requires longer { end - again ≤ to - from }
    requires fit { (to - from) + (end - again) < 2 ^ 64 }
    ensures { result.longest ≡ to - from }
{
    let mut spans = Spans::new();
    spans.begin(from);
    spans.end(to);
    spans.begin(again);
    spans.sum(end)
}

/// A state that has ended doesn't stand.
pub fn stands_on_behind_its_end(from: u64, to: u64) -> Option<u64>
    ensures { result ≡ None }
{
    let mut spans = Spans::new();
    spans.begin(from);
    spans.end(to);
    spans.begun()
}

/// The time under way counts, up to the end of the line.
pub fn time_under_way_has_no_bits(from: u64, end: u64) -> SpanSum
    ensures { result.bits ≡ end - from }
{
    let mut spans = Spans::new();
    spans.begin(from);
    spans.sum(end)
}
