//! The two forms of a DS1 line.

ghost use Rattle.std.specs.Prelude.{◌≡◌, ◌≤◌, length};
ghost use Rattle.pdh_ds1.specs.Forms.{name_of};

/// The form of a DS1 line.
#[derive(Clone, Copy, Debug, PartialEq, Eq)]
pub enum Frame1 {
    /// Superframes of 12 frames.
    Super,
    /// Extended superframes of 24 frames.
    Extended,
}

impl Frame1 {
    /// Its word on the command line and in texts: `sf` or `esf`.
    pub fn name(self) -> &'static str
        ensures value { result.now ≡ name_of self }
        ensures short { length result.now ≤ 3 }
    {
        match self {
            Frame1::Super => "sf",
            Frame1::Extended => "esf",
        }
    }
}
