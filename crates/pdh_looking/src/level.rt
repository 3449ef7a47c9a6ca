//! Levels by their names.

ghost use Rattle.std.specs.Prelude.{◌≡◌};
ghost use Rattle.pdh_looking.specs.Words.{name_of};

/// A level of a hierarchy.
#[derive(Clone, Copy, Debug, PartialEq, Eq)]
pub enum Level {
    /// 2048 kbit/s.
    E1,
    /// 8448 kbit/s.
    E2,
    /// 34368 kbit/s.
    E3,
    /// 139264 kbit/s.
    E4,
    /// 1544 kbit/s.
    Ds1,
    /// 6312 kbit/s.
    Ds2,
    /// 44736 kbit/s.
    Ds3,
}

impl Level {
    /// Its name in texts.
    pub fn name(self) -> &'static str
        ensures { result.now ≡ name_of self }
    {
        match self {
            Level::E1 => "E1",
            Level::E2 => "E2",
            Level::E3 => "E3",
            Level::E4 => "E4",
            Level::Ds1 => "DS1",
            Level::Ds2 => "DS2",
            Level::Ds3 => "DS3",
        }
    }
}
