//! A recorded 2048 kbit/s line in CRC-4 multiframes.

ghost use Rattle.std.specs.Prelude.{◌≡◌, [], IfOk};
ghost use Rattle.pdh_e1_events.specs.Line.{e1_meaning};

use pdh_edge::Failed;
use pdh_g706::E1Align;
use pdh_judging::Judged;
use pdh_nowhere::Nowhere;
use pdh_packed::Packed;
use pdh_placed::Recorded;
use pdh_rx::NodeCounts;
use pdh_shape::TOP;
use pdh_watch::Watch;
use std::alloc::{AllocError, Global};

/// A recorded 2048 kbit/s line in CRC-4 multiframes. Only `open` takes memory.
#[derive(Drop)]
pub struct E1Line {
    align: E1Align,
}

impl E1Line {
    /// A line that has no bit yet; or it finds no memory.
    pub fn open(alloc: Global) -> Result<E1Line, AllocError>
        ensures stands { IfOk result (λ line. ⟦<E1Line as Recorded>⟧.stands line []) }
        ensures meaning { IfOk result (λ line. ⟦<E1Line as Recorded>⟧.meaning line ≡ e1_meaning) }
    {
        let align = E1Align::open(alloc)?;
        Ok(E1Line { align })
    }
}

impl Recorded for E1Line {
    ghost use Rattle.pdh_g706.specs.View.{StandsFor};
    ghost use Rattle.pdh_e1_events.specs.Line.{e1_meaning};

    ghost stands = { λ l line. StandsFor l.align line };

    ghost meaning = { λ l. e1_meaning };

    fn push<W: Watch>(&mut self, bit: bool, watch: &mut W) {
        match self.align.push(bit, &mut Nowhere, watch) {
            Ok(()) => {}
            // Nothing is kept of the payload.
            Err(Failed) => unreachable!(),
        }
    }

    fn glide(&mut self, bits: &Packed, from: usize) -> usize {
        self.align.glide(bits, from)
    }

    fn count_nodes(&self, counts: &mut Vec<NodeCounts>) -> Result<(), AllocError> {
        counts.push(NodeCounts {
            path: TOP,
            bits: self.align.bits(),
            frames: self.align.multiframes().saturating_mul(16),
            // multiframes are judged, and no frames
            judged: Judged {
                frames: 0,
                right: 0,
            },
        })?;
        Ok(())
    }
}
