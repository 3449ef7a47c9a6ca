//! A state that begins and ends.

ghost use Rattle.std.specs.Prelude.{◌≡◌, List, [], ◌∷◌, ◌++◌};
ghost use Rattle.pdh_spans.specs.Times.{Turn, begun_with, begun_after, ended, times};
ghost use Rattle.pdh_spans.specs.Times.Turn.{Begins, Ends};
ghost use Rattle.pdh_spans.specs.Sums.{sum_of, Fits};

use crate::SpanSum;

// Where the time began that goes on, where the state begins at a place.
fn begun_at(begun: Option<u64>, place: u64) -> Option<u64>
    ensures { result ≡ begun_with begun (Begins place) }
{
    match begun {
        Some(from) => Some(from),
        None => Some(place),
    }
}

/// Sums up the times in which a state stood, as its turns come. It keeps a few numbers, however many there are.
#[derive(Clone, Copy, Debug)]
pub struct Spans {
    // where the state began that stands
    begun: Option<u64>,
    // the times that have ended
    ended: SpanSum,
}

impl Spans {
    ghost use Rattle.pdh_spans.specs.Standing.{StandsFor};

    /// The state doesn't stand, and never stood.
    pub fn new() -> Spans
        ensures { StandsFor result [] }
    {
        let ended = SpanSum::none();
        Spans { begun: None, ended }
    }

    /// It begins with the bit at a place, unless it stands already.
    pub fn begin(&mut self, place: u64)
        ensures { (turns : List Turn) → StandsFor self.old turns → StandsFor self.new (turns ++ Begins place ∷ []) }
    {
        let begun = begun_at(self.begun, place);
        self.begun = begun;
    }

    /// It ends before the bit at a place, if it stands.
    pub fn end(&mut self, place: u64)
        ensures { (turns : List Turn) → StandsFor self.old turns → Fits (ended (turns ++ Ends place ∷ []))
            → StandsFor self.new (turns ++ Ends place ∷ []) }
    {
        let ended = self.sum(place);
        self.ended = ended;
        self.begun = None;
    }

    /// Where the time began that goes on, if it stands.
    pub fn begun(&self) -> Option<u64>
        ensures { (turns : List Turn) → StandsFor self.now turns → result ≡ begun_after turns }
    {
        self.begun
    }

    /// The number and the lengths of the times in which it stood, where the line ends before the bit at a place.
    pub fn sum(&self, end: u64) -> SpanSum
        ensures { (turns : List Turn) → StandsFor self.now turns → Fits (times turns end) → result ≡ sum_of (times turns end) }
    {
        match self.begun {
            Some(from) => self.ended.plus(from, end),
            None => self.ended,
        }
    }
}
