//! What an end receives.

ghost use Rattle.std.specs.Prelude.{◌≡◌, ◌+◌, ◌<◌, ◌≤◌, ◌^◌, Bool, List};
ghost use Rattle.pdh_shape.specs.declared.role.Service.{Service};
ghost use Rattle.pdh_shape.specs.Frame.{FrameShape};
ghost use Rattle.pdh_duplex.specs.Hearing.{Heard, hears, next_say as next_say_of};
ghost use Rattle.pdh_duplex.specs.Tallies.{tally_none};

use crate::tally::{Tallied, Tally};
use pdh_edge::Failed;
use pdh_nowhere::Nowhere;
use pdh_packed::Packed;
use pdh_rx::{Rx, take_watched};
use pdh_shape::Service;
use pdh_watch::Watch;

/// The receiver of an end, and its watch.
#[derive(Drop)]
pub struct Incoming<R: Rx, W: Watch> {
    pub receiver: R,
    pub watch: Tallied<W>,
    /// In how many ticks the parity of a frame of the top was wrong.
    pub errors: u64,
}

impl<R: Rx, W: Watch> Incoming<R, W> {
    ghost use Rattle.pdh_duplex.specs.Heard.{HasHeard};

    /// A receiver that has taken no bit, and a watch that sees the events.
    pub fn new(receiver: R, watch: W) -> Incoming<R, W>
        ensures receiver { result.receiver ≡ receiver }
        ensures watch { result.watch.watch ≡ watch }
        ensures tally { result.watch.tally ≡ tally_none }
        ensures errors { result.errors ≡ 0 }
    {
        Incoming {
            receiver,
            watch: Tallied {
                watch,
                tally: Tally::none(),
            },
            errors: 0,
        }
    }

    /// What the end says in its next frame: an alarm where no alignment holds, and a far end block error where the last tick was
    /// in error.
    pub fn next_say(&self) -> Service
        ensures { (shapes : List FrameShape) (heard : Heard) (first : W) → HasHeard R.Rx W.Watch shapes heard first self.now → result ≡ next_say_of shapes heard }
    {
        Service {
            alarm: !self.watch.tally.aligned,
            febe: !self.watch.tally.in_error,
            ..Service::idle()
        }
    }

    /// Receives the bits of a tick.
    pub fn receive(&mut self, bits: &Packed)
        requires stands { (line : List Bool) × R.stands self.old.receiver line }
        requires few { self.old.errors < 2 ^ 63 }
        ensures heard { (shapes : List FrameShape) (heard : Heard) (first : W) → HasHeard R.Rx W.Watch shapes heard first self.old
            → HasHeard R.Rx W.Watch shapes (hears shapes bits.now.bits heard) first self.new }
        ensures errors { self.new.errors ≤ self.old.errors + 1 }
    {
        self.watch.tally.in_error = false;
        match take_watched(&mut self.receiver, bits, &mut Nowhere, &mut self.watch) {
            Ok(()) => {}
            // Nothing is kept of what the leaves receive.
            Err(Failed) => unreachable!(),
        }
        self.errors += u64::from(self.watch.tally.in_error);
    }

    /// The watch, which nothing shows an event any more.
    pub fn into_watch(self) -> W
        ensures { result ≡ self.watch.watch }
    {
        self.watch.into_watch()
    }
}
