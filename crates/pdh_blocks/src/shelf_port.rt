//! The calls of a port, over its blocks and its shelf.

ghost use Rattle.std.proofs.Common.{◌∙◌, ap};
ghost use Rattle.std.specs.Prelude.{◌≡◌, IfOk, IfErr, OnOk, OnErr};
ghost use Rattle.pdh_edge.specs.Ports.{PutsPart, HasCause, nothing};
ghost use Rattle.pdh_blocks.specs.State.{over};
ghost use Rattle.pdh_blocks.specs.Lists.{inputs_of, waits_in, outputs_of, room_in};
ghost use Rattle.pdh_blocks.specs.Held.{IsPort, NamesFailed, AreWritten};
ghost use Rattle.pdh_blocks.specs.Kept.{Keeps, Feeds, Drains, IsReady, IsRefused};
ghost use Rattle.pdh_blocks.specs.Opened.{CanOpen, opened, IsWritten};
ghost use Rattle.pdh_blocks.specs.laws.PortProps.{IsPort-prop};

use crate::blocks::Blocks;
use crate::leaf_block::BLOCK_BITS;
use crate::source::Source;
use pdh_edge::{Drain, Failed, Feed, FeedStop, Port, Shelf};
use pdh_packed::Packed;
use std::alloc::Global;

/// A port over a shelf: it gives the first bits of files, and appends to other files what is put to
/// it. It reads and appends blocks of 4,096 bytes. Only `open` takes memory.
#[derive(Drop)]
pub struct ShelfPort<S: Shelf> {
    shelf: S,
    blocks: Blocks,
    ghost port: { IsPort (over (S.state shelf) blocks) } by { IsPort-prop (over (S.state shelf) blocks) },
}

/// Want of memory for a port, with the shelf that it was to have.
#[derive(Drop)]
pub struct NoPort<S> {
    /// The shelf.
    pub shelf: S,
}

impl<S: Shelf> ShelfPort<S> {
    /// A fresh port that gives the bits of these sources, and takes bits for files of these names.
    /// It takes the memory for its names and blocks, or answers the shelf where there is none.
    pub fn open(
        alloc: Global,
        shelf: S,
        reads: &[Source],
        writes: &[String],
    ) -> Result<ShelfPort<S>, NoPort<S>>
        requires { CanOpen (S.state shelf) reads.now writes.now }
        ensures opened { IfOk result (λ port. over (S.state port.shelf) port.blocks
            ≡ opened (S.state shelf) reads.now writes.now) }
        ensures same { IfOk result (λ port. port.shelf ≡ shelf) }
        ensures back { IfErr result (λ none. none.shelf ≡ shelf) }
    {
        match Blocks::open(alloc, reads, writes) {
            Ok(blocks) => Ok(ShelfPort { shelf, blocks }),
            Err(_) => Err(NoPort { shelf }),
        }
    }

    /// Appends the whole bytes that wait, for every output in order. Up to seven last bits of each,
    /// which fill no byte, stay unwritten. Where no whole byte waits, the shelf is left. Where a call
    /// fails, the count of the outputs' faults has risen.
    pub fn finish(&mut self) -> Result<(), Failed>
        ensures drained { Drains (over (S.state self.old.shelf) self.old.blocks)
            (over (S.state self.new.shelf) self.new.blocks) }
        ensures same { OnOk result (outputs_of (over (S.state self.new.shelf) self.new.blocks)
            ≡ outputs_of (over (S.state self.old.shelf) self.old.blocks)) }
        ensures written { OnOk result
            (IsWritten (over (S.state self.new.shelf) self.new.blocks)) }
        ensures none { AreWritten (over (S.state self.old.shelf) self.old.blocks)
            → S.state self.new.shelf ≡ S.state self.old.shelf }
        ensures err { OnErr result
            (PutsPart nothing (outputs_of (over (S.state self.old.shelf) self.old.blocks))
            (outputs_of (over (S.state self.new.shelf) self.new.blocks))) }
        ensures cause { HasCause self.old.blocks.drain_faults self.new.blocks.drain_faults result }
    {
        self.blocks.fresh = false;
        self.blocks.finish(&mut self.shelf)
    }

    /// Which name the call had that failed last, counted over the sources and then the outputs, or
    /// None where no call of this port has failed.
    pub fn failed_name(&self) -> Option<u32>
        ensures value { result ≡ self.now.blocks.failed }
        ensures named { NamesFailed (over (S.state self.now.shelf) self.now.blocks) }
    {
        self.blocks.failed
    }

    /// Hands the shelf back.
    pub fn close(self) -> S
        ensures { result ≡ self.shelf }
    {
        let ShelfPort { shelf, blocks: _ } = self;
        shelf
    }
}

impl<S: Shelf> Feed for ShelfPort<S> {
    ghost use Rattle.pdh_blocks.specs.Done.{IsUnread};
    ghost use Rattle.pdh_blocks.specs.laws.PortLaws.{feeds_same, feeds_join, feeds_holds, left_is, waits_left, feed_faults_later};

    ghost inputs = { λ p. inputs_of (over (S.state p.shelf) p.blocks) };

    ghost feed_faults = { λ p. p.blocks.feed_faults };

    ghost waits = { λ p. waits_in p.blocks.leaves.items };

    ghost fed = { λ a b. Feeds (over (S.state a.shelf) a.blocks) (over (S.state b.shelf) b.blocks) };

    ghost unread = { λ p k. IsUnread (over (S.state p.shelf) p.blocks) k };

    ghost fed_same = { λ a. feeds_same (over (S.state a.shelf) a.blocks) };

    ghost fed_join = { λ a b c p q. feeds_join p q };

    ghost fed_holds = { λ a b p. feeds_holds p };

    ghost fed_counts = { λ a b p. feed_faults_later p.keeps };

    ghost left_told = { λ a k bits h. left_is (over (S.state a.shelf) a.blocks) k bits a.port h };

    ghost waits_left = { λ a k. waits_left (over (S.state a.shelf) a.blocks) k a.port };

    fn feed_faults(&self) -> u64 {
        self.blocks.feed_faults
    }

    #[inline(always)]
    fn bit(&mut self, leaf: u32) -> Result<bool, FeedStop> {
        self.blocks.make_due(&mut self.shelf, leaf)?;
        Ok(self.blocks.leaves[leaf as usize].give_bit())
    }

    #[inline(always)]
    fn bits(&mut self, leaf: u32, most: usize, into: &mut Packed) -> Result<usize, FeedStop> {
        self.blocks.make_due(&mut self.shelf, leaf)?;
        Ok(self.blocks.leaves[leaf as usize].give(most, into))
    }

    fn left(&self, leaf: u32) -> u64 {
        self.blocks.leaves[leaf as usize].left()
    }

    fn waiting(&self, leaf: u32) -> u64 {
        self.blocks.leaves[leaf as usize].waiting() as u64
    }
}

impl<S: Shelf> Drain for ShelfPort<S> {
    ghost use Rattle.pdh_blocks.specs.laws.PortLaws.{drains_same, drains_join, drains_holds, drain_faults_later};

    ghost outputs = { λ p. outputs_of (over (S.state p.shelf) p.blocks) };

    ghost drain_faults = { λ p. p.blocks.drain_faults };

    ghost drained = { λ a b. Drains (over (S.state a.shelf) a.blocks) (over (S.state b.shelf) b.blocks) };

    ghost room = { λ p k. room_in (over (S.state p.shelf) p.blocks) k };

    ghost drained_same = { λ a. drains_same (over (S.state a.shelf) a.blocks) };

    ghost drained_join = { λ a b c p q. drains_join p q };

    ghost drained_holds = { λ a b p. drains_holds p };

    ghost drained_counts = { λ a b p. drain_faults_later p.keeps };

    fn drain_faults(&self) -> u64 {
        self.blocks.drain_faults
    }

    fn put(&mut self, leaf: u32, bit: bool) -> Result<(), Failed> {
        self.blocks.fresh = false;
        self.blocks.put(&mut self.shelf, leaf, bit)
    }

    fn put_all(&mut self, leaf: u32, bits: &Packed) -> Result<(), Failed> {
        self.blocks.fresh = false;
        self.blocks.put_all(&mut self.shelf, leaf, bits)
    }

    fn is_deaf(&self) -> bool {
        false
    }

    #[inline(always)]
    fn has_room(&self, leaf: u32, bits: usize) -> bool {
        bits < BLOCK_BITS - self.blocks.outputs[leaf as usize].len()
    }

    #[inline(always)]
    fn put_in_room(&mut self, leaf: u32, bits: &Packed) {
        self.blocks.fresh = false;
        self.blocks.outputs[leaf as usize].take_all(bits);
    }
}

impl<S: Shelf> Port for ShelfPort<S> {
    ghost use Rattle.std.specs.Prelude.{true};
    ghost use Rattle.pdh_blocks.specs.laws.PortLaws.{keeps_same, keeps_join, keeps_ready, keeps_holds, feed_faults_later, drain_faults_later};

    ghost fresh = { λ p. p.blocks.fresh ≡ true };

    ghost ready = { λ p. IsReady (over (S.state p.shelf) p.blocks) };

    ghost refused = { λ p. IsRefused (over (S.state p.shelf) p.blocks) };

    ghost kept = { λ a b. Keeps (over (S.state a.shelf) a.blocks) (over (S.state b.shelf) b.blocks) };

    ghost kept_same = { λ a. keeps_same (over (S.state a.shelf) a.blocks) };

    ghost kept_join = { λ a b c p q. keeps_join p q };

    ghost kept_ready = { λ a b p r. keeps_ready p r };

    ghost kept_counts = { λ a b p. (feed_faults_later p, drain_faults_later p) };

    ghost kept_holds = { λ a b p. keeps_holds p };

    ghost fed_is_kept = { λ a b p. p.keeps };

    ghost drained_is_kept = { λ a b p. p.keeps };

    ghost fed_fresh = { λ a b p r. p.fresh ∙ r };

    ghost fed_keeps_outputs = { λ a b p. (p.outputs, p.drain_faults) };

    ghost drained_keeps_inputs = { λ a b p. (p.inputs, p.feed_faults) };

    ghost drained_keeps_waiting = { λ a b p k. ap (λ leaves. waits_in leaves k) p.leaves };

    fn start(&mut self) -> Result<(), Failed> {
        self.blocks.fresh = false;
        self.blocks.start_missing(&mut self.shelf)?;
        self.blocks.ready = true;
        Ok(())
    }
}
