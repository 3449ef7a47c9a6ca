//! A node of far stores without its events: an aligner, and a far store for each tributary.

ghost use Rattle.std.specs.Prelude.{◌≡◌, ◌<◌, ◌≤◌, ◌+◌, Bool, List, [], ◌∷◌, length, take, drop, IfOk, OnOk, OnErr};
ghost use Rattle.pdh_edge.specs.Ports.{Outputs, HasCause};
ghost use Rattle.pdh_rx.specs.Meaning.{TakesBits, TakesPart};
ghost use Rattle.pdh_desync.specs.FarStore.{pieces_of, start_fill};
ghost use Rattle.pdh_desync.specs.FarNode.{FarLeaves, SmoothStands, far_meaning, IsReady, KeepsPlace};

use crate::far_stores::FarStores;
use crate::leaves::Leaves;
use pdh_align::Aligner;
use pdh_edge::{Drain, Failed};
use pdh_packed::Packed;
use pdh_runs::Layout;
use pdh_rx::{Strip, frames_after, gap_after};
use pdh_shape::{Path, Shape};
use std::alloc::{AllocError, Global};
use std::marker::Model;
use std::rc::Rc;

/// A node of far stores that notes nothing.
#[derive(Drop)]
pub struct Unwatched<S: Shape> {
    path: Path,
    stores: FarStores<S>,
    aligner: Aligner<S>,
    // what takes the ready frames apart
    strip: Strip<S>,
    // how many positions of a gap were passed over since its last whole frame's length
    gap: u32,
    frames: u64,
}

impl<S: Shape> Model for Unwatched<S> {
    ghost use Rattle.std.specs.Prelude.{◌<◌};
    ghost use Rattle.pdh_desync.specs.States.{FarState};

    ghost Value = { FarState };

    ghost view = { λ u. record { path = u.path; stores = u.stores; aligner = u.aligner; gap = u.gap; frames = u.frames } };

    ghost invariant = { λ u. u.gap < S.LEN };
}

impl<S: Shape> Unwatched<S> {
    /// One at this place in a chain that has taken no bit; or it finds no memory.
    pub fn open(
        alloc: Global,
        path: Path,
        layout: Rc<Layout<S>>,
        leaves: Leaves,
    ) -> Result<Unwatched<S>, AllocError>
        requires { FarLeaves S.shape leaves }
        ensures path { IfOk result (λ node. node.path ≡ path) }
        ensures leaves { IfOk result (λ node. node.stores.leaves ≡ leaves) }
        ensures stands { IfOk result (λ node. SmoothStands S.shape node []) }
    {
        let stores = FarStores::open(alloc, leaves)?;
        let aligner = Aligner::open(alloc)?;
        let strip = Strip::open(alloc, layout)?;
        Ok(Unwatched {
            path,
            stores,
            aligner,
            strip,
            gap: 0,
            frames: 0,
        })
    }

    /// How many frames it has delivered. At `u64::MAX` the count stands.
    pub fn frames(&self) -> u64
        ensures { result ≡ self.now.frames }
    {
        self.frames
    }

    /// How many bits of a tributary are held at the start of the next piece.
    pub fn fill(&self, trib: u8) -> u32
        requires { trib < S.TRIBS }
        ensures { (line : List Bool) → SmoothStands S.shape self.now line
            → result ≡ start_fill S.shape trib (pieces_of S.shape line) (length (pieces_of S.shape line)) }
    {
        self.stores.fill(trib) as u32
    }

    /// Takes the next bit of the line, and puts each bit that leaves gain by it. It fails only where the drain failed.
    pub fn push<D: Drain>(&mut self, bit: bool, drain: &mut D) -> Result<(), Failed>
        requires { IsReady S.shape self.old (D.outputs drain.old) }
        ensures taken { OnOk result (TakesBits (far_meaning S.shape self.old) (bit ∷ [])
            (SmoothStands S.shape self.old) (SmoothStands S.shape self.new) (D.outputs drain.old) (D.outputs drain.new)) }
        ensures part { OnErr result (TakesPart (far_meaning S.shape self.old) (bit ∷ [])
            (SmoothStands S.shape self.old) (D.outputs drain.old) (D.outputs drain.new)) }
        ensures same { KeepsPlace self.old self.new }
        ensures cause { HasCause (D.drain_faults drain.old) (D.drain_faults drain.new) result }
        ensures drained { D.drained drain.old drain.new }
    {
        let step = self.aligner.push(bit);
        self.gap = gap_after::<S>(step, self.gap);
        self.frames = frames_after(step, self.frames);
        self.stores
            .give_step(&mut self.strip, &mut self.aligner, step, self.gap, drain)
    }

    // Takes bits from a place on, none or more and so many at most, by which no leaf gains anything, and answers how many:
    // positions of a gap that a search passes over, short of a whole frame's length of it, or bits up to the one at which frames
    // end.
    fn idle(&mut self, bits: &Packed, from: usize, most: usize) -> usize
        requires { from + most ≤ length bits.now.bits }
        ensures most { result ≤ most }
        ensures taken { (outputs : Outputs) → TakesBits (far_meaning S.shape self.old) (take result (drop from bits.now.bits))
            (SmoothStands S.shape self.old) (SmoothStands S.shape self.new) outputs outputs }
        ensures same { KeepsPlace self.old self.new }
    {
        let short = most.min((S::LEN - 1 - self.gap) as usize);
        let passed = self.aligner.pass(bits, from, short);
        if passed > 0 {
            self.gap += passed as u32;
            return passed;
        }
        self.aligner.take(bits, from, most)
    }

    // Takes bits from a place on, at least one and so many at most, puts each bit that leaves gain by them, and answers how many.
    fn advance<D: Drain>(
        &mut self,
        bits: &Packed,
        from: usize,
        most: usize,
        drain: &mut D,
    ) -> Result<usize, Failed>
        requires some { 0 < most }
        requires within { from + most ≤ length bits.now.bits }
        requires ready { IsReady S.shape self.old (D.outputs drain.old) }
        ensures count { IfOk result (λ count. (0 < count) × (count ≤ most)) }
        ensures taken { IfOk result (λ count. TakesBits (far_meaning S.shape self.old) (take count (drop from bits.now.bits))
            (SmoothStands S.shape self.old) (SmoothStands S.shape self.new) (D.outputs drain.old) (D.outputs drain.new)) }
        ensures part { OnErr result (TakesPart (far_meaning S.shape self.old) (take most (drop from bits.now.bits))
            (SmoothStands S.shape self.old) (D.outputs drain.old) (D.outputs drain.new)) }
        ensures same { KeepsPlace self.old self.new }
        ensures cause { HasCause (D.drain_faults drain.old) (D.drain_faults drain.new) result }
        ensures drained { D.drained drain.old drain.new }
    {
        let waited = self.idle(bits, from, most);
        if waited > 0 {
            return Ok(waited);
        }
        self.push(bits.get(from), drain)?;
        Ok(1)
    }

    /// Takes so many bits of the line from a place on, and puts each bit that leaves gain by them. It fails only where the drain
    /// failed.
    pub fn take<D: Drain>(
        &mut self,
        bits: &Packed,
        from: usize,
        count: usize,
        drain: &mut D,
    ) -> Result<(), Failed>
        requires within { from + count ≤ length bits.now.bits }
        requires ready { IsReady S.shape self.old (D.outputs drain.old) }
        ensures taken { OnOk result (TakesBits (far_meaning S.shape self.old) (take count (drop from bits.now.bits))
            (SmoothStands S.shape self.old) (SmoothStands S.shape self.new) (D.outputs drain.old) (D.outputs drain.new)) }
        ensures part { OnErr result (TakesPart (far_meaning S.shape self.old) (take count (drop from bits.now.bits))
            (SmoothStands S.shape self.old) (D.outputs drain.old) (D.outputs drain.new)) }
        ensures same { KeepsPlace self.old self.new }
        ensures cause { HasCause (D.drain_faults drain.old) (D.drain_faults drain.new) result }
        ensures drained { D.drained drain.old drain.new }
    {
        // a place fits, since a length does
        let _fits = bits.len();
        let mut done = 0;
        while done < count {
            done += self.advance(bits, from + done, count - done, drain)?;
        }
        Ok(())
    }
}
