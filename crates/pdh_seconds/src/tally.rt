//! Numbers of seconds.

ghost use Rattle.std.specs.Prelude.{◌≡◌, [], ◌∷◌, false, if◌then◌else◌};
ghost use Rattle.pdh_seconds.specs.Availability.{told_as};
ghost use Rattle.pdh_seconds.specs.Counting.{no_seconds, sum_of, Fit, tally_of, tally_as};

use crate::Second;

/// How many seconds there were of each kind.
#[derive(Clone, Copy, Debug, PartialEq, Eq)]
pub struct Tally {
    /// All.
    pub seconds: u64,
    /// Available ones that were errored.
    pub errored: u64,
    /// Available ones that were severely errored.
    pub severe: u64,
    /// Unavailable ones.
    pub unavailable: u64,
    /// Available ones in which the far end told an error.
    pub far: u64,
}

impl Tally {
    // That of no second.
    pub(crate) fn none() -> Tally
        ensures { result ≡ no_seconds }
    {
        Tally {
            seconds: 0,
            errored: 0,
            severe: 0,
            unavailable: 0,
            far: 0,
        }
    }

    // That of one second, which is available.
    pub(crate) fn available(second: Second) -> Tally
        ensures { result ≡ tally_of (told_as false second ∷ []) }
    {
        let errored = one_if(second.errored);
        let severe = one_if(second.severe);
        let far = one_if(second.far);
        Tally {
            seconds: 1,
            errored,
            severe,
            unavailable: 0,
            far,
        }
    }

    // The same available seconds, which are unavailable or not.
    pub(crate) fn counted_as(self, unavailable: bool) -> Tally
        ensures { result ≡ tally_as unavailable self }
    {
        if unavailable {
            return Tally {
                seconds: self.seconds,
                errored: 0,
                severe: 0,
                unavailable: self.seconds,
                far: 0,
            };
        }
        self
    }

    // That of two times.
    pub(crate) fn plus(self, other: Tally) -> Tally
        ensures { Fit self other → result ≡ sum_of self other }
    {
        let seconds = self.seconds.saturating_add(other.seconds);
        let errored = self.errored.saturating_add(other.errored);
        let severe = self.severe.saturating_add(other.severe);
        let unavailable = self.unavailable.saturating_add(other.unavailable);
        let far = self.far.saturating_add(other.far);
        Tally {
            seconds,
            errored,
            severe,
            unavailable,
            far,
        }
    }
}

// 1 for true.
fn one_if(holds: bool) -> u64
    ensures { result ≡ (if holds then 1 else 0) }
{
    if holds { 1 } else { 0 }
}
