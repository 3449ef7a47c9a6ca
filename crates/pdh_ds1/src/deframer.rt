//! The alignment machine of a DS1 line whose superframes have one plan.

ghost use Rattle.std.specs.Prelude.{◌≡◌, ◌<◌, ◌≤◌, ◌+◌, ◌*◌, ◌++◌, ◌∷◌, ℕ, count_by, Bool, List, [], length, take, drop, IsTrue, IfOk, OnOk, OnErr};
ghost use Rattle.pdh_edge.specs.Ports.{HasCause};
ghost use Rattle.pdh_align.specs.Aligning.{frame_back, frames_gained};
ghost use Rattle.pdh_align.specs.declared.step.Step.TheVariants.{Lost};
ghost use Rattle.pdh_line.specs.Tracking.{Piece};
ghost use Rattle.pdh_line.specs.Tracking.Piece.{Gap, Delivered};
ghost use Rattle.pdh_ds1.specs.Packing.{line_payload};
ghost use Rattle.pdh_ds1.specs.Receiving.{ds1_far, judged};
ghost use Rattle.pdh_ds1.specs.Superframe.{in_superframe};
ghost use Rattle.pdh_framed.specs.Taking.{Takes, TakesPart, TakesQuietly};
ghost use Rattle.pdh_ds1.specs.Machine.{Judges, counted, superframes_counted, superframes_after as superframes_after_step};
ghost use Rattle.pdh_ds1.specs.View.{DeframerStands};

use crate::block_counts::BlockCounts;
use crate::codec::append_payload;
use crate::{InSuperframe, Superframe};
use pdh_align::{Aligner, Step};
use pdh_edge::{Drain, Failed};
use pdh_packed::Packed;
use std::alloc::{AllocError, Global};

/// Finds superframes of a plan in a line, and loses them. Only `open` takes memory.
#[derive(Drop)]
pub struct Deframer<P: InSuperframe> {
    aligner: Aligner<Superframe<P>>,
    // room for a superframe,
    superframe: Packed,
    // and for the payload of three
    payload: Packed,
    superframes: u64,
    // those of the extended form
    blocks: BlockCounts,
}

// How many superframes a step makes ready.
fn ready_after(step: Step) -> u8
    ensures gained { result ≡ frames_gained step }
    ensures few { result ≤ 3 }
{
    match step {
        Step::Aligned => 3,
        Step::Frame => 1,
        _ => 0,
    }
}

// How many superframes are delivered after a step.
fn superframes_after(step: Step, superframes: u64) -> u64
    ensures { result ≡ superframes_after_step step superframes }
{
    superframes.saturating_add(u64::from(ready_after(step)))
}

// Forgets the superframe before where alignment is lost.
fn settle(step: Step, blocks: &mut BlockCounts)
    ensures lost { step ≡ Lost → (pieces : List Piece) (n : ℕ) → Judges blocks.old pieces → Judges blocks.new (pieces ++ Gap n ∷ []) }
    ensures other { (step ≡ Lost → ⊥) → blocks.new ≡ blocks.old }
{
    if step == Step::Lost {
        blocks.end();
    }
}

// Judges the block before a superframe, in the extended form.
fn judge<P: InSuperframe>(blocks: &mut BlockCounts, superframe: &Packed)
    requires { length superframe.now.bits ≡ P.PLAN.len }
    ensures { P.PLAN.frames ≡ 24 → (pieces : List Piece) → Judges blocks.old pieces → Judges blocks.new (pieces ++ Delivered superframe.now.bits ∷ []) }
{
    if P::PLAN.frames == 24 {
        blocks.superframe(superframe);
    }
}

// Appends the payload of a ready superframe.
fn gather<P: InSuperframe>(
    aligner: &Aligner<Superframe<P>>,
    back: u8,
    superframe: &mut Packed,
    payload: &mut Packed,
)
    requires ready { back < length aligner.now.ready }
    requires superframe { superframe.old.capacity ≡ P.PLAN.len }
    requires room { length payload.old.bits + 192 * P.PLAN.frames ≤ payload.old.capacity }
    ensures superframe { superframe.new ≡ record { capacity = P.PLAN.len; bits = frame_back aligner.now.ready back } }
    ensures whole { length (frame_back aligner.now.ready back) ≡ P.PLAN.len }
    ensures payload { payload.new ≡ record payload.old { bits = payload.old.bits ++ line_payload (frame_back aligner.now.ready back) P.PLAN.frames } }
    ensures long { length payload.new.bits ≡ length payload.old.bits + 192 * P.PLAN.frames }
{
    superframe.clear();
    aligner.append_frame(back, superframe);
    append_payload(payload, superframe, P::PLAN.frames as usize);
}

impl<P: InSuperframe> Deframer<P> {
    /// A machine that searches, and has taken no bit; or it finds no memory.
    pub(crate) fn open(alloc: Global) -> Result<Deframer<P>, AllocError>
        ensures { IfOk result (λ m. DeframerStands P.f_bits P.PLAN m []) }
    {
        let aligner = Aligner::open(alloc)?;
        let superframe = Packed::open(alloc, P::PLAN.len as usize)?;
        let payload = Packed::open(alloc, 576 * P::PLAN.frames as usize)?;
        Ok(Deframer {
            aligner,
            superframe,
            payload,
            superframes: 0,
            blocks: BlockCounts::none(),
        })
    }

    /// How many superframes were delivered. At `u64::MAX` the count stands.
    pub(crate) fn superframes(&self) -> u64
        ensures { (line : List Bool) → DeframerStands P.f_bits P.PLAN self.now line
            → result ≡ superframes_counted P.f_bits P.PLAN line }
    {
        self.superframes
    }

    /// How many blocks were judged, in the extended form. At `u64::MAX` the count stands.
    pub(crate) fn blocks(&self) -> u64
        ensures { P.PLAN.frames ≡ 24 → (line : List Bool) → DeframerStands P.f_bits P.PLAN self.now line
            → result ≡ counted (length (judged (in_superframe P.f_bits P.PLAN) line)) }
    {
        self.blocks.judged
    }

    /// How many of them were errored. At `u64::MAX` the count stands.
    pub(crate) fn errored(&self) -> u64
        ensures { P.PLAN.frames ≡ 24 → (line : List Bool) → DeframerStands P.f_bits P.PLAN self.now line
            → result ≡ counted (count_by (λ errored. errored) (judged (in_superframe P.f_bits P.PLAN) line)) }
    {
        self.blocks.errored
    }

    /// Takes the next bits of the line, and puts each payload bit that is gained by them to leaf 0 of the drain. It fails
    /// only where the drain failed, and isn't used again then.
    pub(crate) fn take<D: Drain>(&mut self, bits: &Packed, drain: &mut D) -> Result<(), Failed>
        requires stands { (line : List Bool) × DeframerStands P.f_bits P.PLAN self.old line }
        requires list { IsTrue ((D.outputs drain.old).holds 0) }
        ensures taken { OnOk result (Takes (ds1_far (in_superframe P.f_bits P.PLAN))
            (DeframerStands P.f_bits P.PLAN self.old)
            (DeframerStands P.f_bits P.PLAN self.new)
            bits.now.bits (D.outputs drain.old) (D.outputs drain.new)) }
        ensures part { OnErr result (TakesPart (ds1_far (in_superframe P.f_bits P.PLAN))
            (DeframerStands P.f_bits P.PLAN self.old)
            bits.now.bits (D.outputs drain.old) (D.outputs drain.new)) }
        ensures cause { HasCause (D.drain_faults drain.old) (D.drain_faults drain.new) result }
        ensures drained { D.drained drain.old drain.new }
    {
        let mut done = self.glide(bits, 0);
        while done < bits.len() {
            self.push(bits.get(done), drain)?;
            done += 1;
            done += self.glide(bits, done);
        }
        Ok(())
    }

    // Takes the next bits of the line from a place on, none or more of those that gain nothing, and answers how many.
    fn glide(&mut self, bits: &Packed, from: usize) -> usize
        requires { from ≤ length bits.now.bits }
        ensures count { from + result ≤ length bits.now.bits }
        ensures taken { TakesQuietly (ds1_far (in_superframe P.f_bits P.PLAN))
            (DeframerStands P.f_bits P.PLAN self.old)
            (DeframerStands P.f_bits P.PLAN self.new)
            (take result (drop from bits.now.bits)) }
    {
        let len = bits.len();
        let mut done = 0;
        while from + done < len {
            let count = self.idle(bits, from + done);
            done += count;
            // where fewer positions than a superframe has were passed over, or a superframe ends, the next bit comes by itself
            if count < P::PLAN.len as usize {
                return done;
            }
        }
        done
    }

    // Takes bits from a place on, none or more of those that gain nothing, and answers how many: positions of a gap that a
    // search passes over, or bits up to the one at which superframes end.
    fn idle(&mut self, bits: &Packed, from: usize) -> usize
        requires { from ≤ length bits.now.bits }
        ensures count { from + result ≤ length bits.now.bits }
        ensures taken { TakesQuietly (ds1_far (in_superframe P.f_bits P.PLAN))
            (DeframerStands P.f_bits P.PLAN self.old)
            (DeframerStands P.f_bits P.PLAN self.new)
            (take result (drop from bits.now.bits)) }
    {
        let most = bits.len() - from;
        let passed = self.aligner.pass(bits, from, most);
        if passed > 0 {
            return passed;
        }
        self.aligner.take(bits, from, most)
    }

    // Takes the next bit of the line, and puts each payload bit that is gained by it.
    fn push<D: Drain>(&mut self, bit: bool, drain: &mut D) -> Result<(), Failed>
        requires stands { (line : List Bool) × DeframerStands P.f_bits P.PLAN self.old line }
        requires list { IsTrue ((D.outputs drain.old).holds 0) }
        ensures taken { OnOk result (Takes (ds1_far (in_superframe P.f_bits P.PLAN))
            (DeframerStands P.f_bits P.PLAN self.old)
            (DeframerStands P.f_bits P.PLAN self.new)
            (bit ∷ []) (D.outputs drain.old) (D.outputs drain.new)) }
        ensures part { OnErr result (TakesPart (ds1_far (in_superframe P.f_bits P.PLAN))
            (DeframerStands P.f_bits P.PLAN self.old)
            (bit ∷ []) (D.outputs drain.old) (D.outputs drain.new)) }
        ensures cause { HasCause (D.drain_faults drain.old) (D.drain_faults drain.new) result }
        ensures drained { D.drained drain.old drain.new }
    {
        let step = self.aligner.push(bit);
        self.superframes = superframes_after(step, self.superframes);
        let ready = ready_after(step);
        settle(step, &mut self.blocks);
        self.payload.clear();
        for done in 0..ready {
            gather::<P>(
                &self.aligner,
                ready - 1 - done,
                &mut self.superframe,
                &mut self.payload,
            );
            judge::<P>(&mut self.blocks, &self.superframe);
        }
        drain.put_all(0, &self.payload)
    }
}
