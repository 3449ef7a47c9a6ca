//! The count of a line's seconds.

ghost use Rattle.std.specs.Prelude.{◌≡◌, ◌+◌, ◌<◌, ◌^◌, not, List, [], ◌∷◌, ◌++◌, length};
ghost use Rattle.pdh_seconds.specs.declared.second.Second.{Second};
ghost use Rattle.pdh_seconds.specs.Availability.{told};
ghost use Rattle.pdh_seconds.specs.Counting.{no_seconds, sum_of, Fit, tally_as, tally_of};

use crate::{Second, Tally};

// So many seconds in a row of the other kind end a time (ITU-T G.826, Annex A).
const SECONDS_IN_A_ROW: u64 = 10;

/// Counts the seconds of a line as they come. It keeps a few numbers, however many there are.
#[derive(Clone, Copy, Debug)]
pub struct Seconds {
    // whether the time before the seconds that wait is unavailable
    unavailable: bool,
    // the seconds of which it is settled whether they are available
    settled: Tally,
    // those that wait, counted as available ones: fewer than ten in a row, all of the kind that would end the time before them
    waiting: Tally,
}

impl Seconds {
    ghost use Rattle.pdh_seconds.specs.Standing.{StandsFor};

    /// No second has come.
    pub fn new() -> Seconds
        ensures { StandsFor result [] }
    {
        let settled = Tally::none();
        let waiting = Tally::none();
        Seconds {
            unavailable: false,
            settled,
            waiting,
        }
    }

    // Settles the seconds that wait, as unavailable ones or as available ones.
    fn settle(&mut self, unavailable: bool)
        ensures { let waiting = tally_as unavailable self.old.waiting in Fit self.old.settled waiting
            → self.new ≡ record self.old { settled = sum_of self.old.settled waiting; waiting = no_seconds } }
    {
        let settled = self.settled.plus(self.waiting.counted_as(unavailable));
        let waiting = Tally::none();
        self.settled = settled;
        self.waiting = waiting;
    }

    // Ends the time before the seconds that wait: they are of the other one.
    fn turn(&mut self)
        ensures { let waiting = tally_as (not self.old.unavailable) self.old.waiting in Fit self.old.settled waiting
            → self.new ≡ record { unavailable = not self.old.unavailable; settled = sum_of self.old.settled waiting; waiting = no_seconds } }
    {
        let unavailable = !self.unavailable;
        self.unavailable = unavailable;
        self.settle(unavailable);
    }

    /// Takes the next second.
    pub fn note(&mut self, second: Second)
        ensures { (seconds : List Second) → StandsFor self.old seconds → length seconds + 1 < 2 ^ 64
            → StandsFor self.new (seconds ++ second ∷ []) }
    {
        let waiting = self.waiting.plus(Tally::available(second));
        self.waiting = waiting;
        if second.severe == self.unavailable {
            self.settle(self.unavailable);
            return;
        }
        if self.waiting.seconds < SECONDS_IN_A_ROW {
            return;
        }
        self.turn();
    }

    /// How many seconds of each kind there were so far, where no more come.
    pub fn tally(&self) -> Tally
        ensures { (seconds : List Second) → StandsFor self.now seconds → length seconds < 2 ^ 64
            → result ≡ tally_of (told seconds) }
    {
        self.settled.plus(self.waiting.counted_as(self.unavailable))
    }
}
