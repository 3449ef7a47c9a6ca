//! The seconds of a line.

ghost use Rattle.std.specs.Prelude.{◌≡◌, ◌+◌, ◌-◌, ◌*◌, ◌/◌, ◌<◌, ◌≤◌, ◌^◌, nat_le, List, [], ◌∷◌, ◌++◌, length};
ghost use Rattle.pdh_spans.specs.Times.Turn.{Begins, Ends};
ghost use Rattle.pdh_seconds.specs.Availability.{told};
ghost use Rattle.pdh_seconds.specs.Counting.{tally_of};
ghost use Rattle.pdh_timeline.specs.Touches.{has_touched};
ghost use Rattle.pdh_timeline.specs.Marks.{Mark, seconds_of, second_from};
ghost use Rattle.pdh_timeline.specs.Marks.Mark.{Turns, Errored, Far};

use crate::State;
use crate::touch::Touch;
use pdh_seconds::{Second, Seconds, Tally};

// Whether three tenths of so many bits or more are in so many blocks of so many bits.
fn are_many(blocks: u64, block: u32, bits: u64) -> bool
    ensures { result ≡ nat_le (3 * bits) (10 * blocks * block) }
{
    3 * u128::from(bits) <= 10 * u128::from(blocks) * u128::from(block)
}

/// Counts the seconds of a line by what comes at its bits. It keeps a few numbers, however long the line is.
#[derive(Clone, Copy, Debug)]
pub struct Timeline {
    // bits in a second
    rate: u64,
    // bits of a block
    block: u32,
    // the second that runs, from 0
    second: u64,
    // what came in it: states,
    out: Touch,
    ais: Touch,
    alarm: Touch,
    // errored blocks, of which the count stands at `u64::MAX`,
    blocks: u64,
    // and errors that the far end told
    far: bool,
    // the seconds before it
    seconds: Seconds,
}

impl Timeline {
    ghost use Rattle.pdh_timeline.specs.Standing.{StandsFor};

    /// A line with so many bits in a second and in a block, at which nothing has come.
    pub fn new(rate: u64, block: u32) -> Timeline
        requires { 0 < rate }
        ensures stands { StandsFor result [] }
        ensures rate { result.rate ≡ rate }
        ensures block { result.block ≡ block }
        ensures second { result.second ≡ 0 }
    {
        let seconds = Seconds::new();
        let touch = Touch::none();
        Timeline {
            rate,
            block,
            second: 0,
            out: touch,
            ais: touch,
            alarm: touch,
            blocks: 0,
            far: false,
            seconds,
        }
    }

    // What the second that runs showed, where it has so many bits.
    fn shown(&self, bits: u64) -> Second
        ensures { result ≡ second_from self.now.block bits (has_touched self.now.out) (has_touched self.now.ais)
            (has_touched self.now.alarm) self.now.blocks self.now.far }
    {
        let out = self.out.touches();
        let ais = self.ais.touches();
        let alarm = self.alarm.touches();
        let many = are_many(self.blocks, self.block, bits);
        Second {
            errored: (out || ais) || self.blocks > 0,
            severe: (out || ais) || (self.blocks > 0 && many),
            far: alarm || self.far,
        }
    }

    // Goes on to the next second.
    fn next_second(&mut self)
        requires { self.old.second + 1 < 2 ^ 64 }
        ensures stands { (marks : List Mark) → StandsFor self.old marks → StandsFor self.new marks }
        ensures second { self.new.second ≡ self.old.second + 1 }
        ensures rate { self.new.rate ≡ self.old.rate }
        ensures block { self.new.block ≡ self.old.block }
    {
        let second = self.shown(self.rate);
        self.seconds.note(second);
        let out = self.out.next();
        let ais = self.ais.next();
        let alarm = self.alarm.next();
        self.out = out;
        self.ais = ais;
        self.alarm = alarm;
        self.blocks = 0;
        self.far = false;
        self.second += 1;
    }

    // Goes on to a second that isn't over.
    fn reach(&mut self, second: u64)
        ensures stands { (marks : List Mark) → StandsFor self.old marks → StandsFor self.new marks }
        ensures second { self.old.second ≤ second → self.new.second ≡ second }
        ensures rate { self.new.rate ≡ self.old.rate }
        ensures block { self.new.block ≡ self.old.block }
    {
        while self.second < second {
            self.next_second();
        }
    }

    /// A state begins with the bit at a place, which isn't before the second that runs.
    pub fn begin(&mut self, state: State, place: u64)
        requires { 0 < self.old.rate }
        ensures stands { (marks : List Mark) → StandsFor self.old marks → self.old.second ≤ place / self.old.rate
            → StandsFor self.new (marks ++ Turns state (Begins place) ∷ []) }
        ensures second { self.old.second ≤ place / self.old.rate → self.new.second ≡ place / self.old.rate }
        ensures rate { self.new.rate ≡ self.old.rate }
        ensures block { self.new.block ≡ self.old.block }
    {
        let at_start = place % self.rate == 0;
        self.reach(place / self.rate);
        let out = self.out.begin_if(State::Out.is(state), at_start);
        let ais = self.ais.begin_if(State::Ais.is(state), at_start);
        let alarm = self.alarm.begin_if(State::Alarm.is(state), at_start);
        self.out = out;
        self.ais = ais;
        self.alarm = alarm;
    }

    /// A state ends before the bit at a place, which isn't before the second that runs.
    pub fn end(&mut self, state: State, place: u64)
        requires { 0 < self.old.rate }
        ensures stands { (marks : List Mark) → StandsFor self.old marks → self.old.second ≤ place / self.old.rate
            → StandsFor self.new (marks ++ Turns state (Ends place) ∷ []) }
        ensures second { self.old.second ≤ place / self.old.rate → self.new.second ≡ place / self.old.rate }
        ensures rate { self.new.rate ≡ self.old.rate }
        ensures block { self.new.block ≡ self.old.block }
    {
        let at_start = place % self.rate == 0;
        self.reach(place / self.rate);
        let out = self.out.end_if(State::Out.is(state), at_start);
        let ais = self.ais.end_if(State::Ais.is(state), at_start);
        let alarm = self.alarm.end_if(State::Alarm.is(state), at_start);
        self.out = out;
        self.ais = ais;
        self.alarm = alarm;
    }

    /// A block turns out to be errored at the bit at a place, which isn't before the second that runs.
    pub fn errored(&mut self, place: u64)
        requires { 0 < self.old.rate }
        ensures stands { (marks : List Mark) → StandsFor self.old marks → self.old.second ≤ place / self.old.rate
            → length marks + 1 < 2 ^ 64 → StandsFor self.new (marks ++ Errored place ∷ []) }
        ensures second { self.old.second ≤ place / self.old.rate → self.new.second ≡ place / self.old.rate }
        ensures rate { self.new.rate ≡ self.old.rate }
        ensures block { self.new.block ≡ self.old.block }
    {
        self.reach(place / self.rate);
        self.blocks = self.blocks.saturating_add(1);
    }

    /// The far end tells an error at the bit at a place, which isn't before the second that runs.
    pub fn told(&mut self, place: u64)
        requires { 0 < self.old.rate }
        ensures stands { (marks : List Mark) → StandsFor self.old marks → self.old.second ≤ place / self.old.rate
            → StandsFor self.new (marks ++ Far place ∷ []) }
        ensures second { self.old.second ≤ place / self.old.rate → self.new.second ≡ place / self.old.rate }
        ensures rate { self.new.rate ≡ self.old.rate }
        ensures block { self.new.block ≡ self.old.block }
    {
        self.reach(place / self.rate);
        self.far = true;
    }

    /// How many seconds of each kind a line of so many bits has, at none of whose bits more comes; the second that runs isn't
    /// behind the last.
    pub fn tally(mut self, bits: u64) -> Tally
        requires some { 0 < self.rate }
        requires bits { 0 < bits }
        ensures { (marks : List Mark) → StandsFor self marks → self.second ≤ (bits - 1) / self.rate
            → result ≡ tally_of (told (seconds_of self.block self.rate bits marks)) }
    {
        let last = (bits - 1) / self.rate;
        let rest = (bits - 1) % self.rate + 1;
        self.reach(last);
        let second = self.shown(rest);
        self.seconds.note(second);
        self.seconds.tally()
    }
}
