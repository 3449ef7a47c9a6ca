//! Logs as a trait, and the one that takes no slips.

ghost use Rattle.std.specs.Prelude.{◌≡◌, ◌≤◌, [], ◌∷◌, ◌++◌, ℕ, Bool, List, OnOk, OnErr};
ghost use Rattle.pdh_edge.specs.Ports.{HasCause};
ghost use Rattle.pdh_slips.specs.declared.slip.Slip.{Slip};
ghost use Rattle.pdh_slips.specs.Logs.{slip_at};

use crate::Slip;
use pdh_edge::Failed;
use pdh_shape::Place;

/// Is told of slips, one by one and in order. The count of faults never falls, and stands at
/// `u64::MAX` once there.
pub trait SlipLog: Drop {
    /// Logs of this type take slips: stores slip and go on, so that no event ends a line.
    ghost takes: { Bool };

    /// How many calls have failed.
    ghost log_faults: { Self → ℕ };

    /// From a state, being told of these slips in order leads to a later state.
    ghost logged: { Self → List Slip → Self → Type 0 };

    /// The same, where the call for the last of them failed.
    ghost broken: { Self → List Slip → Self → Type 0 };

    /// Whether it takes slips, so that stores slip and go on. It never changes.
    fn takes(&self) -> bool
        ensures { result ≡ takes };

    /// How many calls have failed.
    fn log_faults(&self) -> u64
        ensures { result ≡ log_faults self.now };

    /// Is told of a slip: an overflow or an underflow, and where. It fails only where the count of
    /// faults rose.
    fn slip(&mut self, over: bool, place: &Place) -> Result<(), Failed>
        ensures logged { OnOk result (logged self.old (slip_at over place.now ∷ []) self.new) }
        ensures broken { OnErr result (broken self.old (slip_at over place.now ∷ []) self.new) }
        ensures cause { HasCause (log_faults self.old) (log_faults self.new) result };

    ghost logged_nothing: { (a : Self) → logged a [] a };

    ghost logged_join: { (a b c : Self) (xs ys : List Slip)
        → logged a xs b → logged b ys c → logged a (xs ++ ys) c };

    ghost broken_join: { (a b c : Self) (xs ys : List Slip)
        → logged a xs b → broken b ys c → broken a (xs ++ ys) c };

    ghost logged_faults: { (a b : Self) (xs : List Slip) → logged a xs b → log_faults a ≤ log_faults b };

    ghost broken_faults: { (a b : Self) (xs : List Slip) → broken a xs b → log_faults a ≤ log_faults b };
}

/// Takes no slips, so that the first event of a store ends a line.
#[derive(Clone, Copy, Debug, Drop)]
pub struct NoSlips;

impl SlipLog for NoSlips {
    ghost use Rattle.std.specs.Prelude.{false};
    ghost use Rattle.std.proofs.Common.{refl, ◌∙◌};
    ghost use Rattle.pdh_slips.specs.laws.LogLaws.{as_many};

    ghost takes = { false };

    ghost log_faults = { λ a. 0 };

    ghost logged = { λ a xs b. b ≡ a };

    ghost broken = { λ a xs b. b ≡ a };

    ghost logged_nothing = { λ a. refl };

    ghost logged_join = { λ a b c xs ys p q. q ∙ p };

    ghost broken_join = { λ a b c xs ys p q. q ∙ p };

    ghost logged_faults = { λ a b xs p. as_many 0 };

    ghost broken_faults = { λ a b xs p. as_many 0 };

    fn takes(&self) -> bool {
        false
    }

    fn log_faults(&self) -> u64 {
        0
    }

    fn slip(&mut self, _over: bool, _place: &Place) -> Result<(), Failed> {
        Ok(())
    }
}
