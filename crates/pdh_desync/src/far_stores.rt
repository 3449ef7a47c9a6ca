//! The far stores of all tributaries: they are given what pieces bring, and what comes out of them is put to leaves.

ghost use Rattle.std.specs.Prelude.{◌≡◌, ◌<◌, ◌≤◌, [], ◌∷◌, length, map, replicate, slice_get, Some, IfOk, OnOk, OnErr};
ghost use Rattle.pdh_shape.specs.OwnNumbers.{threshold};
ghost use Rattle.pdh_edge.specs.Ports.{HasCause};
ghost use Rattle.pdh_align.specs.Aligning.{frames_gained};
ghost use Rattle.pdh_desync.specs.FarStore.{FarPiece};
ghost use Rattle.pdh_desync.specs.FarStore.FarPiece.{Frame};
ghost use Rattle.pdh_desync.specs.Held.{Held, fresh_store};
ghost use Rattle.pdh_desync.specs.FarNode.{far_bits, piece_of, far_steps, for_trib, FarLeaves, AreReady, FarGives, FarGivesPart};

use crate::far_store::{FarStore, pass_piece};
use crate::leaves::Leaves;
use pdh_align::{Aligner, Step};
use pdh_edge::{Drain, Failed};
use pdh_packed::Packed;
use pdh_rx::Strip;
use pdh_shape::Shape;
use std::alloc::{AllocError, Global};
use std::marker::{Model, PhantomData};

/// The far stores of a line's tributaries, and the leaves to which they give out. Only `open` takes memory.
#[derive(Drop)]
pub struct FarStores<S: Shape> {
    list: Vec<FarStore>,
    leaves: Leaves,
    // what comes out of a store by a piece
    out: Packed,
    of: PhantomData<S>,
}

impl<S: Shape> Model for FarStores<S> {
    ghost use Rattle.pdh_desync.specs.States.{Stores};
    ghost use Rattle.pdh_desync.specs.FarNode.{AreStores};

    // the stores in order, and the leaves
    ghost Value = { Stores };

    ghost view = { λ f. record { held = f.list.items; leaves = f.leaves } };

    ghost invariant = { λ f. AreStores S.shape f.list.items f.leaves f.out.capacity };
}

// A far store for each tributary, which holds ones.
fn fresh_stores<S: Shape>(alloc: Global) -> Result<Vec<FarStore>, AllocError>
    ensures { IfOk result (λ stores. stores.items ≡ replicate S.TRIBS (fresh_store S.LOW)) }
{
    let mut stores = Vec::new(alloc);
    for _ in 0..S::TRIBS {
        stores.push(FarStore::open(alloc, S::LOW + 1)?)?;
    }
    Ok(stores)
}

impl<S: Shape> FarStores<S> {
    /// Stores that hold ones, and give out to these leaves; or it finds no memory.
    pub fn open(alloc: Global, leaves: Leaves) -> Result<FarStores<S>, AllocError>
        requires { FarLeaves S.shape leaves }
        ensures { IfOk result (λ stores. stores ≡ record { held = replicate S.TRIBS (fresh_store S.LOW); leaves = leaves }) }
    {
        let list = fresh_stores::<S>(alloc)?;
        let out = Packed::open(alloc, S::LOW as usize + 1)?;
        Ok(FarStores {
            list,
            leaves,
            out,
            of: PhantomData,
        })
    }

    /// How many bits of a tributary are held.
    pub fn fill(&self, trib: u8) -> usize
        requires { trib < S.TRIBS }
        ensures few { result ≤ threshold }
        ensures held { (held : Held) × (slice_get self.now.held trib ≡ Some held) × (result ≡ length held.bits) }
    {
        let store = &self.list[trib as usize];
        store.fill()
    }

    // Gives a tributary the bits of a piece, and puts what comes out by it and its mark.
    fn give_to<D: Drain>(&mut self, trib: u8, bits: &Packed, drain: &mut D) -> Result<(), Failed>
        requires known { trib < S.TRIBS }
        requires ready { AreReady S.shape self.old (D.outputs drain.old) }
        requires piece { (piece : FarPiece) × (bits.now.bits ≡ far_bits S.shape trib piece) }
        ensures given { OnOk result ((piece : FarPiece) → bits.now.bits ≡ far_bits S.shape trib piece
            → FarGives S.shape (for_trib trib (piece ∷ [])) self.old self.new (D.outputs drain.old) (D.outputs drain.new)) }
        ensures part { OnErr result ((piece : FarPiece) → bits.now.bits ≡ far_bits S.shape trib piece
            → FarGivesPart S.shape (for_trib trib (piece ∷ [])) self.old (D.outputs drain.old) (D.outputs drain.new)) }
        ensures same { self.new.leaves ≡ self.old.leaves }
        ensures cause { HasCause (D.drain_faults drain.old) (D.drain_faults drain.new) result }
        ensures drained { D.drained drain.old drain.new }
    {
        let store = &mut self.list[trib as usize];
        let mark = pass_piece::<S>(store, trib, bits, &mut self.out);
        drain.put_all(self.leaves.first + trib as u32, &self.out)?;
        drain.put(self.leaves.marks + trib as u32, mark)
    }

    // Gives each tributary its bits of what is loaded.
    fn give_piece<D: Drain>(&mut self, strip: &mut Strip<S>, drain: &mut D) -> Result<(), Failed>
        requires ready { AreReady S.shape self.old (D.outputs drain.old) }
        ensures given { OnOk result (FarGives S.shape (λ j. piece_of strip.old.gap strip.old.frame ∷ [])
            self.old self.new (D.outputs drain.old) (D.outputs drain.new)) }
        ensures part { OnErr result (FarGivesPart S.shape (λ j. piece_of strip.old.gap strip.old.frame ∷ [])
            self.old (D.outputs drain.old) (D.outputs drain.new)) }
        ensures same { self.new.leaves ≡ self.old.leaves }
        ensures cause { HasCause (D.drain_faults drain.old) (D.drain_faults drain.new) result }
        ensures drained { D.drained drain.old drain.new }
    {
        for trib in 0..S::TRIBS {
            strip.read(trib);
            self.give_to(trib, strip.bits(), drain)?;
        }
        Ok(())
    }

    // Gives the tributaries all ready frames, of which there are so many, oldest first.
    fn give_frames<D: Drain>(
        &mut self,
        strip: &mut Strip<S>,
        aligner: &mut Aligner<S>,
        frames: u8,
        drain: &mut D,
    ) -> Result<(), Failed>
        requires frames { length aligner.old.ready ≡ frames }
        requires ready { AreReady S.shape self.old (D.outputs drain.old) }
        ensures given { OnOk result (FarGives S.shape (λ j. map Frame aligner.old.ready)
            self.old self.new (D.outputs drain.old) (D.outputs drain.new)) }
        ensures part { OnErr result (FarGivesPart S.shape (λ j. map Frame aligner.old.ready)
            self.old (D.outputs drain.old) (D.outputs drain.new)) }
        ensures aligner { aligner.new ≡ record aligner.old { ready = aligner.new.ready } }
        ensures same { self.new.leaves ≡ self.old.leaves }
        ensures cause { HasCause (D.drain_faults drain.old) (D.drain_faults drain.new) result }
        ensures drained { D.drained drain.old drain.new }
    {
        for done in 0..frames {
            let back = frames - 1 - done;
            strip.load(aligner, back);
            self.give_piece(strip, drain)?;
        }
        Ok(())
    }

    /// Gives the tributaries what a step of the aligner brings, where `gap` positions of a gap are passed over now since the last
    /// whole frame's length, and puts what comes out by it. It fails only where the drain failed.
    pub fn give_step<D: Drain>(
        &mut self,
        strip: &mut Strip<S>,
        aligner: &mut Aligner<S>,
        step: Step,
        gap: u32,
        drain: &mut D,
    ) -> Result<(), Failed>
        requires frames { length aligner.old.ready ≡ frames_gained step }
        requires ready { AreReady S.shape self.old (D.outputs drain.old) }
        ensures given { OnOk result (FarGives S.shape (λ j. far_steps step aligner.old.ready gap)
            self.old self.new (D.outputs drain.old) (D.outputs drain.new)) }
        ensures part { OnErr result (FarGivesPart S.shape (λ j. far_steps step aligner.old.ready gap)
            self.old (D.outputs drain.old) (D.outputs drain.new)) }
        ensures aligner { aligner.new ≡ record aligner.old { ready = aligner.new.ready } }
        ensures same { self.new.leaves ≡ self.old.leaves }
        ensures cause { HasCause (D.drain_faults drain.old) (D.drain_faults drain.new) result }
        ensures drained { D.drained drain.old drain.new }
    {
        match step {
            Step::Rejected => {
                if gap > 0 {
                    return Ok(());
                }
                strip.load_ones();
                self.give_piece(strip, drain)
            }
            Step::Aligned => self.give_frames(strip, aligner, 3, drain),
            Step::Frame => self.give_frames(strip, aligner, 1, drain),
            _ => Ok(()),
        }
    }
}
