//! The alignment machine of a DS1 line in either form.

ghost use Rattle.std.specs.Prelude.{◌≡◌, Bool, List, [], IsTrue, IfOk, OnOk, OnErr};
ghost use Rattle.pdh_edge.specs.Ports.{HasCause};
ghost use Rattle.pdh_framed.specs.Taking.{Takes, TakesPart};
ghost use Rattle.pdh_ds1.specs.View.{form_of, StandsFor, far_of, superframes_in, blocks_in, errors_in};

use crate::deframer::Deframer;
use crate::{EsfPlan, Frame1, SfPlan};
use pdh_edge::{Drain, Failed};
use pdh_packed::Packed;
use std::alloc::{AllocError, Global};

/// Finds superframes of a form in a DS1 line, and loses them. Only `open` takes memory.
#[derive(Drop)]
pub enum Ds1Align {
    /// Superframes.
    Super(Deframer<SfPlan>),
    /// Extended superframes.
    Extended(Deframer<EsfPlan>),
}

impl Ds1Align {
    /// A machine that searches, and has taken no bit; or it finds no memory.
    pub fn open(alloc: Global, frame: Frame1) -> Result<Ds1Align, AllocError>
        ensures form { IfOk result (λ align. form_of align ≡ frame) }
        ensures stands { IfOk result (λ align. StandsFor align []) }
    {
        match frame {
            Frame1::Super => Ok(Ds1Align::Super(Deframer::open(alloc)?)),
            Frame1::Extended => Ok(Ds1Align::Extended(Deframer::open(alloc)?)),
        }
    }

    /// How many superframes were delivered. At `u64::MAX` the count stands.
    pub fn superframes(&self) -> u64
        ensures { (line : List Bool) → StandsFor self.now line → result ≡ superframes_in (form_of self.now) line }
    {
        match self {
            Ds1Align::Super(machine) => machine.superframes(),
            Ds1Align::Extended(machine) => machine.superframes(),
        }
    }

    /// How many blocks were judged, which are the superframes of the extended form. At `u64::MAX` the count stands.
    pub fn blocks(&self) -> u64
        ensures { (line : List Bool) → StandsFor self.now line → result ≡ blocks_in (form_of self.now) line }
    {
        match self {
            Ds1Align::Super(_) => 0,
            Ds1Align::Extended(machine) => machine.blocks(),
        }
    }

    /// How many of them were errored. At `u64::MAX` the count stands.
    pub fn errored(&self) -> u64
        ensures { (line : List Bool) → StandsFor self.now line → result ≡ errors_in (form_of self.now) line }
    {
        match self {
            Ds1Align::Super(_) => 0,
            Ds1Align::Extended(machine) => machine.errored(),
        }
    }

    /// Takes the next bits of the line, and puts each payload bit that is gained by them to leaf 0 of the drain. It fails
    /// only where the drain failed, and isn't used again then.
    pub fn take<D: Drain>(&mut self, bits: &Packed, drain: &mut D) -> Result<(), Failed>
        requires stands { (line : List Bool) × StandsFor self.old line }
        requires list { IsTrue ((D.outputs drain.old).holds 0) }
        ensures form { form_of self.new ≡ form_of self.old }
        ensures taken { OnOk result (Takes (far_of (form_of self.old)) (StandsFor self.old) (StandsFor self.new) bits.now.bits
            (D.outputs drain.old) (D.outputs drain.new)) }
        ensures part { OnErr result (TakesPart (far_of (form_of self.old)) (StandsFor self.old) bits.now.bits
            (D.outputs drain.old) (D.outputs drain.new)) }
        ensures cause { HasCause (D.drain_faults drain.old) (D.drain_faults drain.new) result }
        ensures drained { D.drained drain.old drain.new }
    {
        match self {
            Ds1Align::Super(machine) => machine.take(bits, drain),
            Ds1Align::Extended(machine) => machine.take(bits, drain),
        }
    }
}
