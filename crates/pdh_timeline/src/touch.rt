//! Whether a state stood in the second that runs.

ghost use Rattle.std.specs.Prelude.{◌≡◌};
ghost use Rattle.pdh_timeline.specs.Touches.{new_touch, touch_begins, touch_ends, next_touch, has_touched};

/// What is kept of a state for the second that runs.
#[derive(Clone, Copy, Debug, PartialEq, Eq)]
pub struct Touch {
    /// It stands now.
    pub stands: bool,
    /// It stood at the first bit of the second.
    pub start: bool,
    /// It began in the second.
    pub begun: bool,
}

impl Touch {
    /// It never stood.
    pub fn none() -> Touch
        ensures { result ≡ new_touch }
    {
        Touch {
            stands: false,
            start: false,
            begun: false,
        }
    }

    /// It begins, at the first bit of the second or at a later one, if it is the state meant.
    pub fn begin_if(self, own: bool, at_start: bool) -> Touch
        ensures { result ≡ touch_begins own at_start self }
    {
        if own {
            return Touch {
                stands: true,
                start: self.start || at_start,
                begun: true,
            };
        }
        self
    }

    /// It ends, likewise.
    pub fn end_if(self, own: bool, at_start: bool) -> Touch
        ensures { result ≡ touch_ends own at_start self }
    {
        if own {
            return Touch {
                stands: false,
                start: self.start && !at_start,
                begun: self.begun,
            };
        }
        self
    }

    /// The next second begins.
    pub fn next(self) -> Touch
        ensures { result ≡ next_touch self }
    {
        Touch {
            stands: self.stands,
            start: self.stands,
            begun: false,
        }
    }

    /// Whether it stood in the second.
    pub fn touches(self) -> bool
        ensures { result ≡ has_touched self }
    {
        self.start || self.begun
    }
}
