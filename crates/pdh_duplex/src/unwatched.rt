//! A way between the ends, before a watch sees its events.

ghost use Rattle.std.specs.Prelude.{◌≤◌, ℕ, [], List, IfOk};
ghost use Rattle.pdh_shape.specs.OwnNumbers.{most_frames};
ghost use Rattle.pdh_clock.specs.Contents.{Contents};
ghost use Rattle.pdh_script.specs.Scripts.{Row, FitIn};
ghost use Rattle.pdh_chain.specs.Calls.{AreOfChain};
ghost use Rattle.pdh_patterns.specs.Leaves.{IsClockOf};
ghost use Rattle.pdh_duplex.specs.Hearing.{nothing_heard};
ghost use Rattle.pdh_duplex.specs.Session.{Setting};

use crate::incoming::Incoming;
use crate::line::Line;
use crate::outgoing::Outgoing;
use crate::way::Way;
use pdh_chain::{Chain, ChainRx, ChainTop, Multiplexer, open_receiver, open_sender};
use pdh_clock::Schedule;
use pdh_patterns::Patterns;
use pdh_rx::Rx;
use pdh_script::Script;
use pdh_watch::Watch;
use std::alloc::{AllocError, Global};

/// A way without a watch.
#[derive(Drop)]
pub struct Unwatched<'a, T: Multiplexer, R: Rx> {
    outgoing: Outgoing<T>,
    line: Line<'a>,
    receiver: R,
}

impl<'a, T: ChainTop, R: ChainRx> Unwatched<'a, T, R> {
    ghost use Rattle.pdh_duplex.specs.Opened.{IsUnwatched};
    ghost use Rattle.pdh_duplex.specs.Ways.{IsWay};

    /// A way on which nothing was sent, whose sender sends the patterns of a seed by a schedule of so many frames, and whose line
    /// a script disturbs; or there is no memory.
    pub fn open(
        alloc: Global,
        chain: Chain,
        clock: &Schedule,
        seed: u64,
        frames: u64,
        script: &'a Script,
    ) -> Result<Unwatched<'a, T, R>, AllocError>
        requires types { AreOfChain chain T.shapes R.shapes T.fits }
        requires clock { IsClockOf chain frames clock.now }
        requires seed { seed ≤ 999999999 }
        requires few { frames ≤ most_frames }
        requires script { (bits : ℕ) × FitIn bits script.now }
        ensures { (to_east to_west : List Row) → IfOk result (λ way. IsUnwatched T.Tx R.Rx
            (record { chain = chain; seed = seed; frames = frames; to_east = to_east; to_west = to_west })
            clock.now script.now way) }
    {
        Ok(Unwatched {
            outgoing: Outgoing {
                sender: open_sender(alloc)?,
                leaves: Patterns::open(alloc, chain, clock, seed, frames)?,
            },
            line: Line::open(alloc, script, T::LEN)?,
            receiver: open_receiver(alloc)?,
        })
    }

    /// The way, whose events a watch sees.
    pub fn with_watch<W: Watch>(self, watch: W) -> Way<'a, T, R, W>
        ensures { (z : Setting) (clock : Contents) (rows : List Row) → IsUnwatched T.Tx R.Rx z clock rows self.entry
            → IsWay T.Tx R.Rx W.Watch z clock rows 0 [] nothing_heard watch result }
    {
        Way {
            outgoing: self.outgoing,
            line: self.line,
            incoming: Incoming::new(self.receiver, watch),
        }
    }
}
