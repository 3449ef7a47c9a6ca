//! Errors by the bits at which they came.

ghost use Rattle.std.specs.Prelude.{◌≡◌, ◌+◌, ◌-◌, ◌^◌, min, Some, None};
ghost use Rattle.pdh_health.specs.Marking.{is_last};

/// How many errors came. Those that come at one bit are one.
#[derive(Clone, Copy)]
pub struct Errors {
    /// How many; the count stands at `u64::MAX`.
    pub count: u64,
    /// The bit of the last.
    pub last: Option<u64>,
}

impl Errors {
    /// None came.
    pub fn none() -> Errors
        ensures { result ≡ record { count = 0; last = None } }
    {
        Errors {
            count: 0,
            last: None,
        }
    }

    /// Whether the last came at this bit.
    pub fn has(&self, place: u64) -> bool
        ensures { result ≡ is_last self.now.last place }
    {
        match self.last {
            Some(last) => last == place,
            None => false,
        }
    }

    /// With one more.
    pub fn plus(self, place: u64) -> Errors
        ensures { result ≡ record { count = min (self.count + 1) (2 ^ 64 - 1); last = Some place } }
    {
        let count = self.count.saturating_add(1);
        Errors {
            count,
            last: Some(place),
        }
    }
}
