//! States that stand over a line.

ghost use Rattle.std.specs.Prelude.{◌≡◌};

/// A state that begins at a bit of a line and ends at another.
#[derive(Clone, Copy, Debug, PartialEq, Eq)]
pub enum State {
    /// The line is out of alignment.
    Out,
    /// It has AIS.
    Ais,
    /// The far end tells a remote alarm.
    Alarm,
}

impl State {
    ghost use Rattle.pdh_timeline.specs.Marks.{is_state};

    /// Whether it is this one.
    pub fn is(self, other: State) -> bool
        ensures { result ≡ is_state self other }
    {
        match self {
            State::Out => matches!(other, State::Out),
            State::Ais => matches!(other, State::Ais),
            State::Alarm => matches!(other, State::Alarm),
        }
    }
}
