//! Of the counts of events.

ghost use Rattle.std.specs.Prelude.{◌≡◌};

use pdh_event_counts::Counts;
use pdh_watch::Kind;

/// An event counts once.
pub fn events_of_a_kind_counted_twice() -> Counts
    ensures { result.aligned ≡ 1 }
{
    Counts::none().plus(Kind::ALIGNED)
}

/// A loss is no alignment.
pub fn losses_counted_as_alignments() -> Counts
    ensures aligned { result.aligned ≡ 0 }
    ensures lost { result.lost ≡ 1 }
{
    Counts::none().plus(Kind::LOST)
}

/// Wrong parity is no wrong path parity.
pub fn parity_counts_go_to_path_parity() -> Counts
    ensures path { result.path_parity ≡ 0 }
    ensures parity { result.parity ≡ 1 }
{
    Counts::none().plus(Kind::PARITY)
}
