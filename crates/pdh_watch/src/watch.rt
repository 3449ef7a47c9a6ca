//! Watches as a trait, and the one that ignores events.

ghost use Rattle.std.specs.Prelude.{◌≡◌, [], ◌∷◌, ◌++◌, List};
ghost use Rattle.pdh_watch.specs.declared.event.Event.{Event};

use crate::Event;

/// Sees events.
pub trait Watch: Drop {
    /// From a state, seeing these events in order leads to a later state.
    ghost saw: { Self → List Event → Self → Type 0 };

    /// Sees one event.
    fn note(&mut self, event: &Event)
        ensures { saw self.old (event.now ∷ []) self.new };

    ghost saw_nothing: { (a : Self) → saw a [] a };

    ghost saw_join: { (a b c : Self) (xs ys : List Event)
        → saw a xs b → saw b ys c → saw a (xs ++ ys) c };
}

/// Ignores events.
#[derive(Clone, Copy, Debug, Drop)]
pub struct Quiet;

impl Watch for Quiet {
    ghost use Rattle.std.proofs.Common.{refl, ◌∙◌};

    ghost saw = { λ a xs b. b ≡ a };

    ghost saw_nothing = { λ a. refl };

    ghost saw_join = { λ a b c xs ys p q. q ∙ p };

    fn note(&mut self, _event: &Event) {}
}
