//! The packer of a payload into a DS1 line in either form.

ghost use Rattle.std.specs.Prelude.{◌≡◌, Bool, List, [], IsTrue, IfOk, OnOk, OnErr};
ghost use Rattle.pdh_edge.specs.Ports.{HasCause};
ghost use Rattle.pdh_framed.specs.Taking.{Takes, TakesPart};
ghost use Rattle.pdh_ds1.specs.View.{packed_form, PacksFor, packed_of};

use crate::framer::Framer;
use crate::{EsfPlan, Frame1, SfPlan};
use pdh_edge::{Drain, Failed};
use pdh_packed::Packed;
use std::alloc::{AllocError, Global};

/// Packs a payload into superframes of a form, each as soon as its payload is there, with ones in the data link. Only `open`
/// takes memory.
#[derive(Drop)]
pub enum Ds1Packer {
    /// Superframes.
    Super(Framer<SfPlan>),
    /// Extended superframes.
    Extended(Framer<EsfPlan>),
}

impl Ds1Packer {
    /// A packer that has taken no bit; or it finds no memory.
    pub fn open(alloc: Global, frame: Frame1) -> Result<Ds1Packer, AllocError>
        ensures form { IfOk result (λ packer. packed_form packer ≡ frame) }
        ensures stands { IfOk result (λ packer. PacksFor packer []) }
    {
        match frame {
            Frame1::Super => Ok(Ds1Packer::Super(Framer::open(alloc)?)),
            Frame1::Extended => Ok(Ds1Packer::Extended(Framer::open(alloc)?)),
        }
    }

    /// Takes the next bits of the payload, and puts each superframe that they fill to leaf 0 of the drain. It fails only where
    /// the drain failed, and isn't used again then.
    pub fn take<D: Drain>(&mut self, bits: &Packed, drain: &mut D) -> Result<(), Failed>
        requires stands { (payload : List Bool) × PacksFor self.old payload }
        requires list { IsTrue ((D.outputs drain.old).holds 0) }
        ensures form { packed_form self.new ≡ packed_form self.old }
        ensures taken { OnOk result (Takes (packed_of (packed_form self.old)) (PacksFor self.old) (PacksFor self.new) bits.now.bits
            (D.outputs drain.old) (D.outputs drain.new)) }
        ensures part { OnErr result (TakesPart (packed_of (packed_form self.old)) (PacksFor self.old) bits.now.bits
            (D.outputs drain.old) (D.outputs drain.new)) }
        ensures cause { HasCause (D.drain_faults drain.old) (D.drain_faults drain.new) result }
        ensures drained { D.drained drain.old drain.new }
    {
        match self {
            Ds1Packer::Super(packer) => packer.take(bits, drain),
            Ds1Packer::Extended(packer) => packer.take(bits, drain),
        }
    }
}
