//! The number and the lengths of times.

ghost use Rattle.std.specs.Prelude.{◌≡◌, [], ◌∷◌, ◌++◌, List};
ghost use Rattle.pdh_spans.specs.Times.{Span};
ghost use Rattle.pdh_spans.specs.Sums.{sum_of, Fits};

/// How many times a state stood, and how long.
#[derive(Clone, Copy, Debug, PartialEq, Eq)]
pub struct SpanSum {
    /// How often it stood.
    pub count: u64,
    /// How long it stood in all, in bits.
    pub bits: u64,
    /// The longest of these times, in bits.
    pub longest: u64,
}

impl SpanSum {
    /// That of no time.
    pub fn none() -> SpanSum
        ensures { result ≡ sum_of [] }
    {
        SpanSum {
            count: 0,
            bits: 0,
            longest: 0,
        }
    }

    // With one more, from a place up to another.
    pub(crate) fn plus(self, from: u64, to: u64) -> SpanSum
        ensures { (spans : List Span) → self ≡ sum_of spans → Fits (spans ++ record { from = from; to = to } ∷ [])
            → result ≡ sum_of (spans ++ record { from = from; to = to } ∷ []) }
    {
        let length = to.saturating_sub(from);
        let count = self.count.saturating_add(1);
        let bits = self.bits.saturating_add(length);
        let longest = self.longest.max(length);
        SpanSum {
            count,
            bits,
            longest,
        }
    }
}
