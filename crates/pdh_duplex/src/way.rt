//! The way from one end to the other.

ghost use Rattle.std.specs.Prelude.{◌≡◌, ◌≤◌, ℕ, List};
ghost use Rattle.pdh_shape.specs.declared.role.Service.{Service};
ghost use Rattle.pdh_script.specs.Scripts.{Row};
ghost use Rattle.pdh_duplex.specs.Hearing.{Heard};
ghost use Rattle.pdh_duplex.specs.Session.{Setting};

use crate::incoming::Incoming;
use crate::line::Line;
use crate::outgoing::Outgoing;
use pdh_chain::Multiplexer;
use pdh_clock::Schedule;
use pdh_packed::Packed;
use pdh_rx::Rx;
use pdh_shape::Service;
use pdh_watch::Watch;

/// What one end sends, the line, and what the other end receives.
#[derive(Drop)]
pub struct Way<'a, T: Multiplexer, R: Rx, W: Watch> {
    pub outgoing: Outgoing<T>,
    pub line: Line<'a>,
    pub incoming: Incoming<R, W>,
}

impl<'a, T: Multiplexer, R: Rx, W: Watch> Way<'a, T, R, W> {
    ghost use Rattle.pdh_duplex.specs.Ways.{GoesOn, IsNext, IsWay};

    /// Sends a frame of `len` bits that says this, and receives what comes of it; `frame` has room for it. Whether it is the last
    /// is told.
    pub fn go(&mut self, say: Service, clock: &Schedule, len: u32, last: bool, frame: &mut Packed)
        requires next { (z : Setting) × (rows : List Row) × (n : ℕ) × (says : List Service) × (heard : Heard) × (first : W) × IsNext z clock.now n len last
            × IsWay T.Tx R.Rx W.Watch z clock.now rows n says heard first self.old }
        requires room { len ≤ frame.old.capacity }
        ensures went { GoesOn T.Tx R.Rx W.Watch clock.now len last say self.old self.new }
        ensures room { frame.new.capacity ≡ frame.old.capacity }
    {
        self.outgoing.send(say, clock, len, frame);
        self.line.carry(frame, last);
        self.incoming.receive(&self.line.came);
    }

    /// The watch, which nothing shows an event any more.
    pub fn into_watch(self) -> W
        ensures { result ≡ self.entry.incoming.watch.watch }
    {
        self.incoming.into_watch()
    }
}
