//! Of the count of seconds.

ghost use Rattle.std.specs.Prelude.{◌≡◌, ◌++◌, replicate};
ghost use Rattle.pdh_seconds.specs.Standing.{StandsFor};

use pdh_seconds::{Second, Seconds, Tally};

/// A second in which nothing is wrong.
pub const GOOD: Second = Second {
    errored: false,
    severe: false,
    far: false,
};

/// A severely errored one.
pub const BAD: Second = Second {
    errored: true,
    severe: true,
    far: false,
};

/// Nine severely errored seconds are available.
pub fn nine_seconds_are_enough(seconds: &mut Seconds) -> Tally
    requires { StandsFor seconds.old (replicate 8 BAD) }
    ensures { result.unavailable ≡ 0 }
{
    seconds.note(BAD);
    seconds.tally()
}

/// A second counts as soon as it has come.
pub fn seconds_that_wait_not_counted(second: Second) -> Tally
    ensures { result.seconds ≡ 1 }
{
    let mut seconds = Seconds::new();
    seconds.note(second);
    seconds.tally()
}

/// An errored second that isn't severely errored is an errored one.
pub fn severe_counted_as_errored(far: bool) -> Tally
    ensures { result.errored ≡ 1 }
{
    let mut seconds = Seconds::new();
    seconds.note(Second {
        errored: true,
        severe: false,
        far,
    });
    seconds.tally()
}

/// Ten severely errored seconds in a row are unavailable.
pub fn unavailable_seconds_not_counted(seconds: &mut Seconds) -> Tally
    requires { StandsFor seconds.old (replicate 9 BAD) }
    ensures { result.unavailable ≡ 10 }
{
    seconds.note(BAD);
    seconds.tally()
}

/// Ten good seconds behind ten unavailable ones are available.
pub fn unavailable_time_never_ends(seconds: &mut Seconds) -> Tally
    requires { StandsFor seconds.old (replicate 10 BAD ++ replicate 9 GOOD) }
    ensures { result.unavailable ≡ 10 }
{
    seconds.note(GOOD);
    seconds.tally()
}
