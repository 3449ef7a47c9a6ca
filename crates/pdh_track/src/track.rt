//! The times of a line's states and its seconds, by what comes at its bits.

ghost use Rattle.std.specs.Prelude.{◌≡◌, ◌+◌, ◌-◌, ◌/◌, ◌<◌, ◌≤◌, ◌^◌, if◌then◌else◌, List, [], ◌∷◌, ◌++◌, length};
ghost use Rattle.pdh_spans.specs.Times.{Turn, begun_after, ended, times};
ghost use Rattle.pdh_spans.specs.Times.Turn.{Begins, Ends};
ghost use Rattle.pdh_spans.specs.Sums.{Fits, sum_of};
ghost use Rattle.pdh_spans.specs.Standing.{StandsFor as SpansStandFor};
ghost use Rattle.pdh_seconds.specs.Availability.{told};
ghost use Rattle.pdh_seconds.specs.Counting.{tally_of};
ghost use Rattle.pdh_timeline.specs.Marks.{Mark, turns_of, seconds_of};
ghost use Rattle.pdh_timeline.specs.Marks.Mark.{Turns, Errored, Far};
ghost use Rattle.pdh_track.specs.Fitting.{AllFit};

use pdh_seconds::Tally;
use pdh_spans::{SpanSum, Spans};
use pdh_timeline::{State, Timeline};

/// Sums up the times of the states of a line, and counts its seconds. It keeps a few numbers, however long the line is.
#[derive(Clone, Copy, Debug)]
pub struct Track {
    out: Spans,
    ais: Spans,
    alarm: Spans,
    timeline: Timeline,
}

// The times of a state, where a state begins at a place that is its own or another.
fn with_begin(spans: Spans, own: bool, place: u64) -> Spans
    ensures { (turns : List Turn) → SpansStandFor spans turns → SpansStandFor result (turns ++ (if own then Begins place ∷ [] else [])) }
{
    let mut spans = spans;
    if own {
        spans.begin(place);
        return spans;
    }
    spans
}

// The same, where it ends.
fn with_end(spans: Spans, own: bool, place: u64) -> Spans
    ensures { (turns : List Turn) → SpansStandFor spans turns → Fits (ended (turns ++ (if own then Ends place ∷ [] else [])))
        → SpansStandFor result (turns ++ (if own then Ends place ∷ [] else [])) }
{
    let mut spans = spans;
    if own {
        spans.end(place);
        return spans;
    }
    spans
}

impl Track {
    ghost use Rattle.pdh_track.specs.Standing.{StandsFor, rate_of, block_of, second_of};

    /// A line with so many bits in a second and in a block, at which nothing has come.
    pub fn new(rate: u64, block: u32) -> Track
        requires { 0 < rate }
        ensures stands { StandsFor result [] }
        ensures rate { rate_of result ≡ rate }
        ensures block { block_of result ≡ block }
        ensures second { second_of result ≡ 0 }
    {
        let spans = Spans::new();
        let timeline = Timeline::new(rate, block);
        Track {
            out: spans,
            ais: spans,
            alarm: spans,
            timeline,
        }
    }

    /// A state begins with the bit at a place, which isn't before the second that runs.
    pub fn begin(&mut self, state: State, place: u64)
        requires { 0 < rate_of self.old }
        ensures stands { (marks : List Mark) → StandsFor self.old marks → second_of self.old ≤ place / rate_of self.old
            → StandsFor self.new (marks ++ Turns state (Begins place) ∷ []) }
        ensures rate { rate_of self.new ≡ rate_of self.old }
        ensures block { block_of self.new ≡ block_of self.old }
        ensures second { second_of self.old ≤ place / rate_of self.old → second_of self.new ≡ place / rate_of self.old }
    {
        self.timeline.begin(state, place);
        let out = with_begin(self.out, State::Out.is(state), place);
        let ais = with_begin(self.ais, State::Ais.is(state), place);
        let alarm = with_begin(self.alarm, State::Alarm.is(state), place);
        self.out = out;
        self.ais = ais;
        self.alarm = alarm;
    }

    /// A state ends before the bit at a place, which isn't before the second that runs.
    pub fn end(&mut self, state: State, place: u64)
        requires { 0 < rate_of self.old }
        ensures stands { (marks : List Mark) → StandsFor self.old marks → second_of self.old ≤ place / rate_of self.old
            → AllFit (marks ++ Turns state (Ends place) ∷ []) → StandsFor self.new (marks ++ Turns state (Ends place) ∷ []) }
        ensures rate { rate_of self.new ≡ rate_of self.old }
        ensures block { block_of self.new ≡ block_of self.old }
        ensures second { second_of self.old ≤ place / rate_of self.old → second_of self.new ≡ place / rate_of self.old }
    {
        self.timeline.end(state, place);
        let out = with_end(self.out, State::Out.is(state), place);
        let ais = with_end(self.ais, State::Ais.is(state), place);
        let alarm = with_end(self.alarm, State::Alarm.is(state), place);
        self.out = out;
        self.ais = ais;
        self.alarm = alarm;
    }

    /// A block turns out to be errored at the bit at a place, which isn't before the second that runs.
    pub fn errored(&mut self, place: u64)
        requires { 0 < rate_of self.old }
        ensures stands { (marks : List Mark) → StandsFor self.old marks → second_of self.old ≤ place / rate_of self.old
            → length marks + 1 < 2 ^ 64 → StandsFor self.new (marks ++ Errored place ∷ []) }
        ensures rate { rate_of self.new ≡ rate_of self.old }
        ensures block { block_of self.new ≡ block_of self.old }
        ensures second { second_of self.old ≤ place / rate_of self.old → second_of self.new ≡ place / rate_of self.old }
    {
        self.timeline.errored(place);
    }

    /// The far end tells an error at the bit at a place, which isn't before the second that runs.
    pub fn told(&mut self, place: u64)
        requires { 0 < rate_of self.old }
        ensures stands { (marks : List Mark) → StandsFor self.old marks → second_of self.old ≤ place / rate_of self.old
            → StandsFor self.new (marks ++ Far place ∷ []) }
        ensures rate { rate_of self.new ≡ rate_of self.old }
        ensures block { block_of self.new ≡ block_of self.old }
        ensures second { second_of self.old ≤ place / rate_of self.old → second_of self.new ≡ place / rate_of self.old }
    {
        self.timeline.told(place);
    }

    /// How often and how long a state stood, where the line has so many bits.
    pub fn sum(&self, state: State, bits: u64) -> SpanSum
        ensures { (marks : List Mark) → StandsFor self.now marks → Fits (times (turns_of state marks) bits)
            → result ≡ sum_of (times (turns_of state marks) bits) }
    {
        match state {
            State::Out => self.out.sum(bits),
            State::Ais => self.ais.sum(bits),
            State::Alarm => self.alarm.sum(bits),
        }
    }

    /// Where the time began in which a state stands, if it does.
    pub fn begun(&self, state: State) -> Option<u64>
        ensures { (marks : List Mark) → StandsFor self.now marks → result ≡ begun_after (turns_of state marks) }
    {
        match state {
            State::Out => self.out.begun(),
            State::Ais => self.ais.begun(),
            State::Alarm => self.alarm.begun(),
        }
    }

    /// How many seconds of each kind a line of so many bits has; the second that runs isn't behind its last.
    pub fn tally(&self, bits: u64) -> Tally
        requires some { 0 < rate_of self.now }
        requires bits { 0 < bits }
        ensures { (marks : List Mark) → StandsFor self.now marks → second_of self.now ≤ (bits - 1) / rate_of self.now
            → result ≡ tally_of (told (seconds_of (block_of self.now) (rate_of self.now) bits marks)) }
    {
        self.timeline.tally(bits)
    }
}
