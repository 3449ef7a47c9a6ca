//! What an end sends.

ghost use Rattle.std.specs.Prelude.{◌≡◌, ◌≤◌, ◌++◌, ℕ, suc, [], ◌∷◌, List};
ghost use Rattle.pdh_shape.specs.declared.role.Service.{Service};
ghost use Rattle.pdh_duplex.specs.Session.{Setting, frame_of};
ghost use Rattle.pdh_duplex.specs.Sending.{CanSend, HasSent};

use pdh_chain::Multiplexer;
use pdh_clock::Schedule;
use pdh_edge::Failed;
use pdh_packed::Packed;
use pdh_patterns::Patterns;
use pdh_shape::Service;
use pdh_slips::NoSlips;
use pdh_tx::Tx;

/// The sender of an end, and the patterns of its leaves.
#[derive(Drop)]
pub struct Outgoing<T: Multiplexer> {
    pub sender: T,
    pub leaves: Patterns,
}

impl<T: Multiplexer> Outgoing<T> {
    /// Makes the next frame, which has `len` bits and says this, in place of what the list held.
    pub fn send(&mut self, say: Service, clock: &Schedule, len: u32, frame: &mut Packed)
        requires can { (z : Setting) × (n : ℕ) × (says : List Service)
            × CanSend T.Tx z clock.now n says len self.old }
        requires room { len ≤ frame.old.capacity }
        ensures sent { (z : Setting) (n : ℕ) (says : List Service)
            → CanSend T.Tx z clock.now n says len self.old
            → HasSent T.Tx z clock.now (suc n) (says ++ say ∷ []) self.new }
        ensures frame { (z : Setting) (n : ℕ) (says : List Service)
            → CanSend T.Tx z clock.now n says len self.old
            → frame.new.bits ≡ frame_of z (says ++ say ∷ []) n }
        ensures room { frame.new.capacity ≡ frame.old.capacity }
    {
        frame.clear();
        self.sender.set(say);
        match self
            .sender
            .make_clear(clock, &mut self.leaves, &mut NoSlips, len as usize, frame)
        {
            Ok(()) => {}
            // The leaves' patterns never fail.
            Err(Failed) => unreachable!(),
        }
    }
}
