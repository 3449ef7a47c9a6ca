//! The demultiplexer: an aligner, and a receiver for each tributary.

ghost use Rattle.std.specs.Prelude.{◌≡◌, ◌<◌, ◌≤◌, ◌+◌, Bool, List, [], length, take, drop, map, IfOk, false};
ghost use Rattle.pdh_rx.specs.Meaning.{TakesQuietly};
ghost use Rattle.pdh_rx.specs.Node.{EachStands, IsDisjoint, ArePlaced, node_meaning, NodeStands, gap_after as gap_after_step, frames_after as frames_after_step};
ghost use Rattle.pdh_rx.specs.laws.NodeLaws.{node_sound, fewer_than_none};

use crate::children::Children;
use crate::frames::{LineBit, act};
use crate::merging::Split;
use crate::{NodeCounts, Rx};
use pdh_align::{Aligner, Step};
use pdh_edge::{Drain, Failed};
use pdh_events::{AisRun, FrameTeller};
use pdh_judging::{Judged, judged_after};
use pdh_packed::Packed;
use pdh_runs::Layout;
use pdh_shape::{Path, Shape};
use pdh_watch::Watch;
use std::alloc::{AllocError, Global};
use std::marker::PhantomData;
use std::rc::Rc;

/// How many positions of a gap are passed over after a step of the aligner, since the last whole frame's length of it, where so
/// many were before. At 0 after `Step::Rejected` a whole frame's length has been passed over.
pub fn gap_after<S: Shape>(step: Step, gap: u32) -> u32
    requires { gap < S.LEN }
    ensures { result ≡ gap_after_step S.shape step gap }
{
    match step {
        Step::Rejected => { if gap + 1 == S::LEN { 0 } else { gap + 1 } }
        Step::Lost => 0,
        _ => gap,
    }
}

/// How many frames are delivered after a step of the aligner, where so many were before. At `u64::MAX` the count stands.
pub fn frames_after(step: Step, frames: u64) -> u64
    ensures { result ≡ frames_after_step step frames }
{
    match step {
        Step::Aligned => frames.saturating_add(3),
        Step::Frame => frames.saturating_add(1),
        _ => frames,
    }
}

/// A demultiplexer, which gives each of its children the received line of a tributary: for each whole
/// frame's length of a gap of the alignment as many ones as a frame carries bits of it at least, and
/// of each delivered frame its own bits. It notes AIS, alignment and its loss, and the events of each
/// delivered frame.
pub struct RxNode<S: Shape, C: Rx> {
    children: Children<S, C>,
    path: Path,
    aligner: Aligner<S>,
    // what splits the frames among the tributaries
    split: Split<S>,
    // how many positions of a gap were passed over since its last whole frame's length
    gap: u32,
    frames: u64,
    judged: Judged,
    // what tells events: the number of the next bit, which stands at `u64::MAX`,
    bits: u64,
    // the ones that the line ends with,
    ais: AisRun,
    // and what is kept of the delivered frames
    teller: FrameTeller<S>,
    of: PhantomData<S>,
}

// By hand: whoever drops a node makes one call, and not one for each of its parts.
impl<S: Shape, C: Rx> Drop for RxNode<S, C> {
    fn drop(self) {
        let Self {
            children: _,
            path: _,
            aligner: _,
            split: _,
            gap: _,
            frames: _,
            judged: _,
            bits: _,
            ais: _,
            teller: _,
            of: _,
        } = self;
    }
}

impl<S: Shape, C: Rx> RxNode<S, C> {
    /// A demultiplexer of children that have taken no bit, one for each tributary, which has taken no
    /// bit; or it finds no memory. `path` is its place in a chain: a child that is a demultiplexer has
    /// this path with its number, from 1, added. `layout` may be shared with other nodes.
    pub fn open(
        alloc: Global,
        path: Path,
        layout: Rc<Layout<S>>,
        children: Vec<C>,
    ) -> Result<RxNode<S, C>, AllocError>
        requires count { length children.items ≡ S.TRIBS }
        requires fresh { EachStands C.stands children.items (λ j. []) }
        requires disjoint { IsDisjoint (map C.meaning children.items) }
        requires paths { ArePlaced path (map C.meaning children.items) }
        ensures meaning { IfOk result (λ node. ⟦<RxNode<S, C> as Rx>⟧.meaning node
            ≡ node_meaning S.shape path (map C.meaning children.items)) }
        ensures stands { IfOk result (λ node. ⟦<RxNode<S, C> as Rx>⟧.stands node []) }
    {
        let aligner = Aligner::open(alloc)?;
        let teller = FrameTeller::open(alloc, &layout)?;
        let split = Split::open(alloc, layout)?;
        Ok(RxNode {
            children: Children::new(children),
            path,
            aligner,
            split,
            gap: 0,
            frames: 0,
            judged: Judged {
                frames: 0,
                right: 0,
            },
            bits: 0,
            ais: AisRun::new(S::LEN),
            teller,
            of: PhantomData,
        })
    }

    // Takes bits from a place on, none or more of those by which it notes nothing and gives its children nothing, and answers
    // how many: positions of a gap that a search passes over, short of a whole frame's length of it, or bits up to the one
    // at which frames end.
    fn idle(&mut self, bits: &Packed, from: usize) -> usize
        requires begun { from ≤ length bits.now.bits }
        requires stands { (line : List Bool) × ⟦<RxNode<S, C> as Rx>⟧.stands self.old line }
        ensures count { from + result ≤ length bits.now.bits }
        ensures taken { TakesQuietly (⟦<RxNode<S, C> as Rx>⟧.meaning self.old) (take result (drop from bits.now.bits))
            (⟦<RxNode<S, C> as Rx>⟧.stands self.old) (⟦<RxNode<S, C> as Rx>⟧.stands self.new) }
        ensures same { ⟦<RxNode<S, C> as Rx>⟧.meaning self.new ≡ ⟦<RxNode<S, C> as Rx>⟧.meaning self.old }
    {
        let most = (bits.len() - from).min(self.aligner.ahead(self.gap) as usize);
        if most == 0 {
            return 0;
        }
        let calm = self.ais.calm(bits, from, most);
        let short = calm.min((S::LEN - 1 - self.gap) as usize);
        let mut count = self.aligner.pass(bits, from, short);
        self.gap += count as u32;
        if count == 0 {
            count = self.aligner.take(bits, from, calm);
        }
        self.ais.skip(bits, from, count);
        self.bits = self.bits.saturating_add(count as u64);
        count
    }
}

impl<S: Shape, C: Rx> Rx for RxNode<S, C> {
    ghost IS_LEAF = { false };

    const IS_LEAF: bool = false;

    ghost stands = { λ n line. NodeStands C.stands C.meaning S.shape n.children n.aligner n.gap n.frames n.judged n.bits n.ais n.teller line };

    ghost meaning = { λ n. node_meaning S.shape n.path (map C.meaning n.children) };

    // no room is told to suffice for bits of a node
    ghost fits = { λ n room bits. bits ≡ 0 };

    ghost sound = { λ n. node_sound C.meaning C.sound S.shape S.is_frame n.path n.children };

    ghost fits_by = { λ n r r' b b' same few none. fewer_than_none b b' few none };

    fn push<D: Drain, W: Watch>(
        &mut self,
        bit: bool,
        drain: &mut D,
        watch: &mut W,
    ) -> Result<(), Failed> {
        let number = self.bits;
        self.bits = number.saturating_add(1);
        let step = self.aligner.push(bit);
        self.gap = gap_after::<S>(step, self.gap);
        self.frames = frames_after(step, self.frames);
        self.judged = judged_after(self.judged, step, &self.aligner);
        self.ais.note(bit, self.path, number, watch);
        act::<S, C, D, W>(
            &mut self.children,
            &mut self.split,
            &mut self.teller,
            &mut self.aligner,
            step,
            self.gap,
            LineBit {
                path: self.path,
                number,
            },
            drain,
            watch,
        )
    }

    fn frames(&self) -> u64 {
        self.frames
    }

    fn count_nodes(&self, counts: &mut Vec<NodeCounts>) -> Result<(), AllocError> {
        counts.push(NodeCounts {
            path: self.path,
            bits: self.bits,
            frames: self.frames,
            judged: self.judged,
        })?;
        self.children.count_nodes(counts)
    }

    fn glide<D: Drain>(
        &mut self,
        bits: &Packed,
        from: usize,
        _drain: &mut D,
    ) -> Result<usize, Failed> {
        let len = bits.len();
        let mut done = 0;
        while from + done < len {
            let count = self.idle(bits, from + done);
            done += count;
            if count == 0 {
                return Ok(done);
            }
        }
        Ok(done)
    }

    #[inline(always)]
    fn is_deaf<D: Drain>(&self, _drain: &D) -> bool {
        false
    }

    #[inline(always)]
    fn has_room<D: Drain>(&self, _drain: &D, _bits: usize) -> bool {
        false
    }

    fn take_in_room<D: Drain>(&mut self, _bits: &Packed, _drain: &mut D) {}
}
