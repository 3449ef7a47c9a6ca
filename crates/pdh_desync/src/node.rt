//! The node of far stores: a demultiplexer that gives its tributaries out evenly.

ghost use Rattle.std.specs.Prelude.{◌≡◌, ◌⊎◌, ◌<◌, ◌≤◌, ◌+◌, ◌^◌, List, [], Bool, false, length, IfOk};
ghost use Rattle.pdh_rx.specs.laws.NodeLaws.{fewer_than_none};
ghost use Rattle.pdh_desync.specs.FarStore.{pieces_of, start_fill};
ghost use Rattle.pdh_desync.specs.Smooth.{smooth_meaning};
ghost use Rattle.pdh_desync.specs.FarNode.{far_meaning, WatchedStands};
ghost use Rattle.pdh_desync.specs.laws.SmoothSound.{smooth_sound};

use crate::leaves::Leaves;
use crate::mute::Mute;
use crate::unwatched::Unwatched;
use pdh_edge::{Drain, Failed};
use pdh_packed::Packed;
use pdh_runs::Layout;
use pdh_rx::{NodeCounts, Rx, RxNode};
use pdh_shape::{Path, Shape};
use pdh_watch::Watch;
use std::alloc::{AllocError, Global};
use std::rc::Rc;

// One that takes bits and puts none for each tributary.
fn mutes<S: Shape>(alloc: Global) -> Result<Vec<Mute>, AllocError>
    ensures { IfOk result (λ mutes. length mutes.items ≡ S.TRIBS) }
{
    let mut mutes = Vec::new(alloc);
    for _ in 0..S::TRIBS {
        mutes.push(Mute::new())?;
    }
    Ok(mutes)
}

/// A demultiplexer that gives out its tributaries through far stores. It puts what comes out of them to one leaf each, and one
/// bit for each piece to another: whether an additional bit was read in it. It notes the events of a demultiplexer at its
/// place.
pub struct SmoothNode<S: Shape> {
    // what notes events, and tells by which bits there is none
    events: RxNode<S, Mute>,
    far: Unwatched<S>,
}

// By hand: whoever drops a node makes one call, and not one for each of its parts.
impl<S: Shape> Drop for SmoothNode<S> {
    fn drop(self) {
        let Self { events: _, far: _ } = self;
    }
}

impl<S: Shape> SmoothNode<S> {
    /// One that has taken no bit; or it finds no memory. `path` is its place in a chain. What comes out is put to the leaves
    /// from `first` on, one for each tributary, and the marks to those from `marks` on.
    pub fn open(
        alloc: Global,
        path: Path,
        first: u32,
        marks: u32,
    ) -> Result<SmoothNode<S>, AllocError>
        requires first { first + S.TRIBS ≤ 2 ^ 32 }
        requires marks { marks + S.TRIBS ≤ 2 ^ 32 }
        requires apart { (first + S.TRIBS ≤ marks) ⊎ (marks + S.TRIBS ≤ first) }
        ensures meaning { IfOk result (λ node. ⟦<SmoothNode<S> as Rx>⟧.meaning node ≡ smooth_meaning S.shape path first marks) }
        ensures stands { IfOk result (λ node. ⟦<SmoothNode<S> as Rx>⟧.stands node []) }
    {
        let layout = Rc::new(alloc, Layout::open(alloc)?)?;
        let events = RxNode::open(alloc, path, layout.clone()?, mutes::<S>(alloc)?)?;
        let far = Unwatched::open(alloc, path, layout, Leaves { first, marks })?;
        Ok(SmoothNode { events, far })
    }

    /// How many bits of a tributary are held at the start of the next piece.
    pub fn fill(&self, trib: u8) -> u32
        requires { trib < S.TRIBS }
        ensures { (line : List Bool) → ⟦<SmoothNode<S> as Rx>⟧.stands self.now line
            → result ≡ start_fill S.shape trib (pieces_of S.shape line) (length (pieces_of S.shape line)) }
    {
        self.far.fill(trib)
    }
}

impl<S: Shape> Rx for SmoothNode<S> {
    ghost IS_LEAF = { false };

    const IS_LEAF: bool = false;

    ghost stands = { λ n line. WatchedStands S.shape (⟦<RxNode<S, Mute> as Rx>⟧.stands n.events) (⟦<RxNode<S, Mute> as Rx>⟧.meaning n.events) n.far line };

    ghost meaning = { λ n. far_meaning S.shape n.far };

    // no room is told to suffice for bits of a node
    ghost fits = { λ n room bits. bits ≡ 0 };

    ghost sound = { λ n. smooth_sound S.shape n.far.path n.far.stores.leaves.first n.far.stores.leaves.marks S.is_frame };

    ghost fits_by = { λ n r r' b b' same few none. fewer_than_none b b' few none };

    fn push<D: Drain, W: Watch>(
        &mut self,
        bit: bool,
        drain: &mut D,
        watch: &mut W,
    ) -> Result<(), Failed> {
        self.events.push(bit, drain, watch)?;
        self.far.push(bit, drain)
    }

    fn frames(&self) -> u64 {
        self.far.frames()
    }

    fn count_nodes(&self, counts: &mut Vec<NodeCounts>) -> Result<(), AllocError> {
        self.events.count_nodes(counts)
    }

    fn glide<D: Drain>(
        &mut self,
        bits: &Packed,
        from: usize,
        drain: &mut D,
    ) -> Result<usize, Failed> {
        let count = self.events.glide(bits, from, drain)?;
        self.far.take(bits, from, count, drain)?;
        Ok(count)
    }

    #[inline(always)]
    fn is_deaf<D: Drain>(&self, _drain: &D) -> bool {
        false
    }

    #[inline(always)]
    fn has_room<D: Drain>(&self, _drain: &D, _bits: usize) -> bool {
        false
    }

    fn take_in_room<D: Drain>(&mut self, _bits: &Packed, _drain: &mut D) {}
}
