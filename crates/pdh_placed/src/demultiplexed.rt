//! The line that a demultiplexer receives, as a recorded one.

ghost use Rattle.std.specs.Prelude.{◌≡◌, Bool, List};

use crate::Recorded;
use pdh_edge::Failed;
use pdh_nowhere::Nowhere;
use pdh_packed::Packed;
use pdh_rx::{NodeCounts, Rx};
use pdh_watch::Watch;
use std::alloc::AllocError;

/// A line that a demultiplexer receives, of whose leaves nobody wants the bits.
#[derive(Drop)]
pub struct Demultiplexed<R: Rx> {
    /// What receives it.
    pub receiver: R,
}

impl<R: Rx> Recorded for Demultiplexed<R> {
    ghost use Rattle.pdh_placed.specs.Lines.{line_meaning};

    ghost stands = { λ d line. R.stands d.receiver line };

    ghost meaning = { λ d. line_meaning (R.meaning d.receiver) };

    fn push<W: Watch>(&mut self, bit: bool, watch: &mut W) {
        match self.receiver.push(bit, &mut Nowhere, watch) {
            Ok(()) => {}
            // Nothing is kept of what the leaves receive.
            Err(Failed) => unreachable!(),
        }
    }

    fn glide(&mut self, bits: &Packed, from: usize) -> usize {
        match self.receiver.glide(bits, from, &mut Nowhere) {
            Ok(count) => count,
            // Nothing is kept of what the leaves receive.
            Err(Failed) => unreachable!(),
        }
    }

    fn count_nodes(&self, counts: &mut Vec<NodeCounts>) -> Result<(), AllocError> {
        self.receiver.count_nodes(counts)
    }
}
