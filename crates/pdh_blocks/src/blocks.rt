//! What a port keeps beside its shelf: the blocks of its lists, its faults, and which outputs were
//! started.

ghost use Rattle.std.specs.Prelude.{◌≡◌, ◌+◌, ◌<◌, ◌^◌, length, Some};
ghost use Rattle.pdh_edge.specs.Counts.{one_more};

use crate::leaf_block::LeafBlock;
use crate::output_block::OutputBlock;
use pdh_edge::Failed;

/// A port without its shelf: its lists block by block, and how far they have come.
#[derive(Drop)]
pub(crate) struct Blocks {
    pub(crate) leaves: Vec<LeafBlock>,
    pub(crate) outputs: Vec<OutputBlock>,
    // the `start` of so many outputs was called, and that of so many has answered Ok
    pub(crate) called: usize,
    pub(crate) started: usize,
    pub(crate) fresh: bool,
    pub(crate) ready: bool,
    pub(crate) feed_faults: u64,
    pub(crate) drain_faults: u64,
    pub(crate) failed: Option<u32>,
    // the bytes of one block on their way
    pub(crate) buffer: Vec<u8>,
    ghost block: { length buffer.items ≡ 4096 },
}

impl Blocks {
    /// Counts a failed call for a leaf.
    pub(crate) fn feed_failed(&mut self, leaf: u32)
        ensures fits { self.old.feed_faults < 2 ^ 64 }
        ensures counted { self.new ≡ record self.old {
          feed_faults = one_more self.old.feed_faults;
          failed = Some leaf;
        } }
    {
        self.feed_faults = self.feed_faults.saturating_add(1);
        self.failed = Some(leaf);
    }

    /// Counts a failed call for an output.
    pub(crate) fn drain_failed(&mut self, output: usize) -> Failed
        requires { length self.old.leaves.items + output < 2 ^ 32 }
        ensures fits { self.old.drain_faults < 2 ^ 64 }
        ensures counted { self.new ≡ record self.old {
          drain_faults = one_more self.old.drain_faults;
          failed = Some (length self.old.leaves.items + output);
        } }
    {
        self.drain_faults = self.drain_faults.saturating_add(1);
        self.failed = Some((self.leaves.len() + output) as u32);
        Failed
    }
}
