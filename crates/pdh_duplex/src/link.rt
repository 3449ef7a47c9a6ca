//! Both ways of a link, and its ticks.

ghost use Rattle.std.specs.Prelude.{◌≡◌, ◌≤◌, ℕ, suc};
ghost use Rattle.pdh_duplex.specs.Session.{Setting, counts_of, ends_after};

use crate::session::Session;
use crate::way::Way;
use pdh_chain::Multiplexer;
use pdh_clock::Schedule;
use pdh_packed::Packed;
use pdh_rx::Rx;
use pdh_watch::Watch;

/// The ways to east and to west.
#[derive(Drop)]
pub struct Link<'a, T: Multiplexer, R: Rx, W: Watch, E: Watch> {
    pub to_east: Way<'a, T, R, E>,
    pub to_west: Way<'a, T, R, W>,
}

impl<'a, T: Multiplexer, R: Rx, W: Watch, E: Watch> Link<'a, T, R, W, E> {
    ghost use Rattle.pdh_duplex.specs.Ways.{IsNext};
    ghost use Rattle.pdh_duplex.specs.Links.{HaveHeard, IsLink, IsReady};

    // A tick, in which both ends send a frame of `len` bits; `frame` has room for it. Whether it is the last is told.
    fn tick(&mut self, clock: &Schedule, len: u32, last: bool, frame: &mut Packed)
        requires next { (z : Setting) × (n : ℕ) × (west : W) × (east : E) × IsNext z clock.now n len last
            × IsLink T.Tx R.Rx W.Watch E.Watch z clock.now n west east self.old }
        requires room { len ≤ frame.old.capacity }
        ensures ticked { (z : Setting) (n : ℕ) (west : W) (east : E) → IsNext z clock.now n len last
            → IsLink T.Tx R.Rx W.Watch E.Watch z clock.now n west east self.old
            → IsLink T.Tx R.Rx W.Watch E.Watch z clock.now (suc n) west east self.new }
        ensures room { frame.new.capacity ≡ frame.old.capacity }
    {
        let west_says = self.to_west.incoming.next_say();
        let east_says = self.to_east.incoming.next_say();
        self.to_east.go(west_says, clock, len, last, frame);
        self.to_west.go(east_says, clock, len, last, frame);
    }

    /// Goes through all ticks, so many, of frames of `len` bits; `frame` has room for one.
    pub fn run(&mut self, clock: &Schedule, len: u32, frames: u64, frame: &mut Packed)
        requires ready { (z : Setting) × (west : W) × (east : E) × IsReady z clock.now len frames
            × IsLink T.Tx R.Rx W.Watch E.Watch z clock.now 0 west east self.old }
        requires room { len ≤ frame.old.capacity }
        ensures ran { (z : Setting) (west : W) (east : E) → IsReady z clock.now len frames
            → IsLink T.Tx R.Rx W.Watch E.Watch z clock.now 0 west east self.old
            → IsLink T.Tx R.Rx W.Watch E.Watch z clock.now frames west east self.new }
    {
        for tick in 0..frames {
            self.tick(clock, len, tick + 1 == frames, frame);
        }
    }

    /// What both ends counted.
    pub fn counts(&self) -> Session
        ensures { (z : Setting) (n : ℕ) (west : W) (east : E) → HaveHeard R.Rx W.Watch E.Watch z n west east self.now
            → result ≡ counts_of z (ends_after z n) }
    {
        let west = &self.to_west.incoming;
        let east = &self.to_east.incoming;
        Session {
            west_frames: west.receiver.frames(),
            east_frames: east.receiver.frames(),
            west_alarms: west.watch.tally.alarms,
            east_alarms: east.watch.tally.alarms,
            west_febe: west.watch.tally.febe,
            east_febe: east.watch.tally.febe,
            west_errors: west.errors,
            east_errors: east.errors,
        }
    }
}
