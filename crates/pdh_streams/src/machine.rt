//! Machines that take the bits of one file, a piece at a time, and put those of another.

ghost use Rattle.std.specs.Prelude.{◌≡◌, Bool, List, IsTrue, OnOk, OnErr};
ghost use Rattle.pdh_edge.specs.Ports.{HasCause};
ghost use Rattle.pdh_framed.specs.Taking.{Takes, TakesPart};
ghost use Rattle.pdh_streams.specs.Codecs.{FrameCodec};

use pdh_ds1::{Ds1Align, Ds1Packer};
use pdh_edge::{Drain, Failed};
use pdh_g706::E1Align;
use pdh_packed::Packed;
use pdh_watch::Quiet;

/// A machine that takes bits, and puts what they give.
pub(crate) trait Machine: Drop {
    /// The codec of the lines that it makes or takes.
    ghost codec: { Self → FrameCodec };

    /// What bits give.
    ghost far: { Self → List Bool → List Bool };

    /// It stands for these taken bits.
    ghost stands: { Self → List Bool → Type 0 };

    /// Takes the next bits, and puts each bit that is gained by them to leaf 0 of the drain. It fails only where the drain
    /// failed, and isn't used again then.
    fn receive<D: Drain>(&mut self, bits: &Packed, drain: &mut D) -> Result<(), Failed>
        requires stands { (taken : List Bool) × stands self.old taken }
        requires list { IsTrue ((D.outputs drain.old).holds 0) }
        ensures codec { codec self.new ≡ codec self.old }
        ensures same { far self.new ≡ far self.old }
        ensures taken { OnOk result (Takes (far self.old) (stands self.old) (stands self.new) bits.now.bits
            (D.outputs drain.old) (D.outputs drain.new)) }
        ensures part { OnErr result (TakesPart (far self.old) (stands self.old) bits.now.bits
            (D.outputs drain.old) (D.outputs drain.new)) }
        ensures cause { HasCause (D.drain_faults drain.old) (D.drain_faults drain.new) result }
        ensures drained { D.drained drain.old drain.new };
}

impl Machine for Ds1Packer {
    ghost use Rattle.pdh_ds1.specs.View.{packed_form, packed_of, PacksFor};
    ghost use Rattle.pdh_streams.specs.Ds1.{ds1_codec};

    ghost codec = { λ m. ds1_codec (packed_form m) };

    ghost far = { λ m. packed_of (packed_form m) };

    ghost stands = { λ m taken. PacksFor m taken };

    fn receive<D: Drain>(&mut self, bits: &Packed, drain: &mut D) -> Result<(), Failed> {
        self.take(bits, drain)
    }
}

impl Machine for Ds1Align {
    ghost use Rattle.pdh_ds1.specs.View.{form_of, far_of, StandsFor};
    ghost use Rattle.pdh_streams.specs.Ds1.{ds1_codec};

    ghost codec = { λ m. ds1_codec (form_of m) };

    ghost far = { λ m. far_of (form_of m) };

    ghost stands = { λ m taken. StandsFor m taken };

    fn receive<D: Drain>(&mut self, bits: &Packed, drain: &mut D) -> Result<(), Failed> {
        self.take(bits, drain)
    }
}

impl Machine for E1Align {
    ghost use Rattle.pdh_g706.specs.Tracking.{e1_far};
    ghost use Rattle.pdh_g706.specs.View.{StandsFor};
    ghost use Rattle.pdh_streams.specs.E1.{e1_codec};

    ghost codec = { λ m. e1_codec };

    ghost far = { λ m. e1_far };

    ghost stands = { λ m taken. StandsFor m taken };

    fn receive<D: Drain>(&mut self, bits: &Packed, drain: &mut D) -> Result<(), Failed> {
        self.take(bits, drain, &mut Quiet)
    }
}
