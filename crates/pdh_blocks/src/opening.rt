//! Making the blocks of a port, which takes all memory that the port needs.

ghost use Rattle.std.specs.Prelude.{◌≡◌, length, map, IfOk};
ghost use Rattle.pdh_edge.specs.Files.{ShelfState};
ghost use Rattle.pdh_blocks.specs.State.{over};
ghost use Rattle.pdh_blocks.specs.Opened.{unread_leaf, unwritten, opened};

use crate::blocks::Blocks;
use crate::leaf_block::{BLOCK_BYTES, LeafBlock};
use crate::output_block::OutputBlock;
use crate::source::Source;
use std::alloc::{AllocError, Global};

// Leaves of which nothing was read.
fn open_leaves(alloc: Global, reads: &[Source]) -> Result<Vec<LeafBlock>, AllocError>
    ensures { IfOk result (λ leaves. leaves.items ≡ map unread_leaf reads.now) }
{
    let mut leaves = Vec::with_capacity(alloc, reads.len())?;
    for source in reads {
        leaves.push(LeafBlock::open(alloc, &source.name, source.bits)?)?;
    }
    Ok(leaves)
}

// Outputs for which nothing waits.
fn open_outputs(alloc: Global, writes: &[String]) -> Result<Vec<OutputBlock>, AllocError>
    ensures { IfOk result (λ outputs. outputs.items ≡ map unwritten writes.now) }
{
    let mut outputs = Vec::with_capacity(alloc, writes.len())?;
    for name in writes {
        outputs.push(OutputBlock::open(alloc, name)?)?;
    }
    Ok(outputs)
}

// So many bytes.
fn open_buffer(alloc: Global, bytes: usize) -> Result<Vec<u8>, AllocError>
    ensures { IfOk result (λ buffer. length buffer.items ≡ bytes) }
{
    vec![in alloc; 0u8; bytes]
}

impl Blocks {
    /// Nothing was given or taken; or no memory for the names and the blocks.
    pub(crate) fn open(
        alloc: Global,
        reads: &[Source],
        writes: &[String],
    ) -> Result<Blocks, AllocError>
        ensures { IfOk result (λ blocks. (shelf : ShelfState)
            → over shelf blocks ≡ opened shelf reads.now writes.now) }
    {
        Ok(Blocks {
            leaves: open_leaves(alloc, reads)?,
            outputs: open_outputs(alloc, writes)?,
            called: 0,
            started: 0,
            fresh: true,
            ready: false,
            feed_faults: 0,
            drain_faults: 0,
            failed: None,
            buffer: open_buffer(alloc, BLOCK_BYTES)?,
        })
    }
}
