//! The sender that is a leaf: its bits are those of a feed's list.

ghost use Rattle.std.specs.Prelude.{◌≡◌};
ghost use Rattle.pdh_shape.specs.Frame.{idle};
ghost use Rattle.pdh_tx.specs.Meaning.{IsFresh};
ghost use Rattle.pdh_tx.specs.Leaf.{leaf_meaning};
ghost use Rattle.pdh_tx.specs.laws.LeafLaws.{leaf_grows, leaf_longer};

use crate::{Tx, TxStop};
use pdh_clock::Schedule;
use pdh_edge::{Failed, Feed, FeedStop, take_bits};
use pdh_packed::Packed;
use pdh_slips::SlipLog;

/// Passes the bits of one leaf of a feed.
#[derive(Drop)]
pub struct Leaf {
    leaf: u32,
    stopped: bool,
}

impl Leaf {
    /// Passes the bits of this leaf.
    pub fn new(leaf: u32) -> Leaf
        ensures meaning { ⟦<Leaf as Tx>⟧.meaning result ≡ leaf_meaning leaf }
        ensures fresh { IsFresh ⟦<Leaf as Tx>⟧.stands_at ⟦<Leaf as Tx>⟧.stands_for
            ⟦<Leaf as Tx>⟧.says ⟦<Leaf as Tx>⟧.is_stopped result }
    {
        Leaf {
            leaf,
            stopped: false,
        }
    }
}

impl Tx for Leaf {
    ghost stands_at = { λ t plan x. Unit {0} };

    ghost stands_for = { λ t supply x. Unit {0} };

    ghost meaning = { λ t. leaf_meaning t.leaf };

    ghost says = { λ t. idle };

    ghost is_stopped = { λ t. t.stopped };

    ghost grows = { λ t. leaf_grows t.leaf };

    ghost longer = { λ t. leaf_longer t.leaf };

    fn stopped(&self) -> bool {
        self.stopped
    }

    fn next<F: Feed, G: SlipLog>(
        &mut self,
        _clock: &Schedule,
        feed: &mut F,
        _log: &mut G,
    ) -> Result<bool, TxStop> {
        match feed.bit(self.leaf) {
            Ok(bit) => Ok(bit),
            Err(FeedStop::Failed) => {
                self.stopped = true;
                Err(TxStop::Failed)
            }
            Err(FeedStop::Ended) => {
                self.stopped = true;
                Err(TxStop::Ended { leaf: self.leaf })
            }
        }
    }

    fn quiet<F: Feed, G: SlipLog>(&self, _clock: &Schedule, feed: &F, most: usize) -> usize {
        feed.left(self.leaf).min(most as u64) as usize
    }

    #[inline(always)]
    fn make_clear<F: Feed, G: SlipLog>(
        &mut self,
        _clock: &Schedule,
        feed: &mut F,
        _log: &mut G,
        count: usize,
        into: &mut Packed,
    ) -> Result<(), Failed> {
        match take_bits(feed, self.leaf, count, into) {
            Ok(()) => Ok(()),
            Err(Failed) => {
                self.stopped = true;
                Err(Failed)
            }
        }
    }
}
