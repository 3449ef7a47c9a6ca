//! Payloads to the superframes of a plan, a superframe at a time.

ghost use Rattle.std.specs.Prelude.{◌≡◌, ◌<◌, ◌≤◌, ◌+◌, ◌*◌, ◌++◌, Bool, List, [], length, take, drop, IsTrue, IfOk, OnOk, OnErr};
ghost use Rattle.pdh_bits.specs.Bits.{bits_of};
ghost use Rattle.pdh_edge.specs.Ports.{HasCause};
ghost use Rattle.pdh_framed.specs.Taking.{Takes, TakesPart};
ghost use Rattle.pdh_ds1.specs.Packing.{word_of, packed_superframes, superframe_of};
ghost use Rattle.pdh_ds1.specs.View.{FramerStands};

use crate::InSuperframe;
use crate::crc::{crc6_after, with_bit};
use crate::f_bits::packed_bit;
use pdh_edge::{Drain, Failed};
use pdh_packed::Packed;
use std::alloc::{AllocError, Global};
use std::marker::PhantomData;

/// Packs a payload into superframes of a plan, each as soon as its payload is there. Only `open` takes memory.
#[derive(Drop)]
pub struct Framer<P: InSuperframe> {
    of: PhantomData<P>,
    // the payload that waits, of less than a superframe,
    payload: Packed,
    // the superframe that was packed last,
    superframe: Packed,
    // and the word that the next one sends
    sent: u8,
}

/// Appends the superframe that carries the first octets of a payload and sends the word, and answers its own word.
pub(crate) fn push_superframe<P: InSuperframe>(line: &mut Packed, payload: &[u8], sent: u8) -> u8
    requires enough { 24 * P.PLAN.frames ≤ length payload.now }
    requires room { length line.old.bits + 193 * P.PLAN.frames ≤ line.old.capacity }
    ensures line { line.new ≡ record line.old { bits = line.old.bits ++ superframe_of P.f_bits sent (bits_of payload.now) P.PLAN.frames } }
    ensures word { result ≡ word_of P.PLAN.frames (superframe_of P.f_bits sent (bits_of payload.now) P.PLAN.frames) }
{
    let mut word = 0;
    for place in 0..P::PLAN.frames {
        let start = 24 * place as usize;
        let octets = &payload[start..start + 24];
        line.push(packed_bit(P::f_bit(place as u8), sent, place));
        line.append_bytes(octets);
        word = crc6_after(with_bit(word, true), octets);
    }
    word
}

impl<P: InSuperframe> Framer<P> {
    /// A packer that has taken no bit, and whose first superframe sends 000000; or it finds no memory.
    pub(crate) fn open(alloc: Global) -> Result<Framer<P>, AllocError>
        ensures { IfOk result (λ m. FramerStands P.f_bits P.PLAN m []) }
    {
        let payload = Packed::open(alloc, 192 * P::PLAN.frames as usize)?;
        let superframe = Packed::open(alloc, P::PLAN.len as usize)?;
        Ok(Framer {
            of: PhantomData,
            payload,
            superframe,
            sent: 0,
        })
    }

    /// Takes the next bits of the payload, and puts each superframe that they fill to leaf 0 of the drain. It fails only where
    /// the drain failed, and isn't used again then.
    pub(crate) fn take<D: Drain>(&mut self, bits: &Packed, drain: &mut D) -> Result<(), Failed>
        requires stands { (payload : List Bool) × FramerStands P.f_bits P.PLAN self.old payload }
        requires list { IsTrue ((D.outputs drain.old).holds 0) }
        ensures taken { OnOk result (Takes (packed_superframes P.f_bits P.PLAN.frames)
            (FramerStands P.f_bits P.PLAN self.old)
            (FramerStands P.f_bits P.PLAN self.new)
            bits.now.bits (D.outputs drain.old) (D.outputs drain.new)) }
        ensures part { OnErr result (TakesPart (packed_superframes P.f_bits P.PLAN.frames)
            (FramerStands P.f_bits P.PLAN self.old)
            bits.now.bits (D.outputs drain.old) (D.outputs drain.new)) }
        ensures cause { HasCause (D.drain_faults drain.old) (D.drain_faults drain.new) result }
        ensures drained { D.drained drain.old drain.new }
    {
        let mut done = 0;
        while done < bits.len() {
            done += self.take_some(bits, done, drain)?;
        }
        Ok(())
    }

    // Takes bits from a place on, as many as there are until the superframe that is due is filled, puts it where it is, and
    // answers how many.
    fn take_some<D: Drain>(
        &mut self,
        bits: &Packed,
        from: usize,
        drain: &mut D,
    ) -> Result<usize, Failed>
        requires more { from < length bits.now.bits }
        requires stands { (payload : List Bool) × FramerStands P.f_bits P.PLAN self.old payload }
        requires list { IsTrue ((D.outputs drain.old).holds 0) }
        ensures some { IfOk result (λ count. (0 < count) × (from + count ≤ length bits.now.bits)) }
        ensures taken { IfOk result (λ count. Takes (packed_superframes P.f_bits P.PLAN.frames)
            (FramerStands P.f_bits P.PLAN self.old)
            (FramerStands P.f_bits P.PLAN self.new)
            (take count (drop from bits.now.bits)) (D.outputs drain.old) (D.outputs drain.new)) }
        ensures part { OnErr result (TakesPart (packed_superframes P.f_bits P.PLAN.frames)
            (FramerStands P.f_bits P.PLAN self.old)
            (drop from bits.now.bits) (D.outputs drain.old) (D.outputs drain.new)) }
        ensures cause { HasCause (D.drain_faults drain.old) (D.drain_faults drain.new) result }
        ensures drained { D.drained drain.old drain.new }
    {
        let count = self.payload.append_some(bits, from);
        if self.payload.len() < self.payload.capacity() {
            return Ok(count);
        }
        self.pack();
        drain.put_all(0, &self.superframe)?;
        Ok(count)
    }

    // Packs the payload that waits, which fills a superframe.
    fn pack(&mut self)
        requires full { length self.old.payload.bits ≡ 192 * P.PLAN.frames }
        requires room { self.old.superframe.capacity ≡ P.PLAN.len }
        ensures superframe { self.new.superframe ≡ record { capacity = P.PLAN.len; bits = superframe_of P.f_bits self.old.sent self.old.payload.bits P.PLAN.frames } }
        ensures sent { self.new.sent ≡ word_of P.PLAN.frames (superframe_of P.f_bits self.old.sent self.old.payload.bits P.PLAN.frames) }
        ensures waiting { self.new.payload ≡ record self.old.payload { bits = [] } }
    {
        let mut buffer = [0u8; 576];
        let octets = &mut buffer[..24 * P::PLAN.frames as usize];
        self.payload.write_bytes(0, octets);
        self.payload.clear();
        self.superframe.clear();
        self.sent = push_superframe::<P>(&mut self.superframe, octets, self.sent);
    }
}
