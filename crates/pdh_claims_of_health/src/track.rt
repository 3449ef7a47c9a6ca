//! Of the track of a node.

ghost use Rattle.std.specs.Prelude.{◌≡◌, ◌-◌, ◌<◌};

use pdh_spans::SpanSum;
use pdh_timeline::State;
use pdh_track::Track;

/// The time of a remote alarm is summed as one.
pub fn alarm_summed_as_ais(rate: u64, from: u64, end: u64) -> SpanSum
    requires { 0 < rate }
    ensures count { result.count ≡ 1 }
    ensures bits { result.bits ≡ end - from }
{
    let mut track = Track::new(rate, 1);
    track.begin(State::Alarm, from);
    track.sum(State::Alarm, end)
}

/// A state stands from the bit at which it began.
pub fn begins_in_the_seconds_alone(rate: u64, from: u64) -> Option<u64>
    requires { 0 < rate }
    ensures { result ≡ Some from }
{
    let mut track = Track::new(rate, 1);
    track.begin(State::Out, from);
    track.begun(State::Out)
}
