//! Of what each second of a line showed.

ghost use Rattle.std.specs.Prelude.{◌≡◌};

use pdh_seconds::Tally;
use pdh_timeline::{State, Timeline};

/// A second a third of whose bits are in errored blocks is severely errored.
pub fn a_third_of_the_bits_is_few() -> Tally
    ensures { result.severe ≡ 1 }
{
    let mut timeline = Timeline::new(30, 10);
    timeline.errored(0);
    timeline.tally(30)
}

/// An errored block makes its own second errored, and not the next.
pub fn errored_blocks_carried_over() -> Tally
    ensures { result.errored ≡ 1 }
{
    let mut timeline = Timeline::new(100, 10);
    timeline.errored(0);
    timeline.tally(200)
}

/// A line of as many bits as two seconds have has two seconds.
pub fn last_second_left_out() -> Tally
    ensures { result.seconds ≡ 2 }
{
    let timeline = Timeline::new(100, 10);
    timeline.tally(200)
}

/// A state that ends before the first bit of a second doesn't stand in it.
pub fn state_that_ends_at_the_start_stood() -> Tally
    ensures { result.errored ≡ 1 }
{
    let mut timeline = Timeline::new(100, 10);
    timeline.begin(State::Out, 0);
    timeline.end(State::Out, 100);
    timeline.tally(200)
}
