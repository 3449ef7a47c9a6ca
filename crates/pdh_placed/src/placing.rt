//! Watches that see events with their places.

ghost use Rattle.std.specs.Prelude.{◌≡◌, [], ◌∷◌, ◌++◌, List, map};
ghost use Rattle.pdh_placed.specs.declared.placed.Placed.{Placed};
ghost use Rattle.pdh_placed.specs.Places.{at_place};

use crate::Placed;
use pdh_watch::{Event, Watch};

/// Sees events with their places.
pub trait PlacedWatch: Drop {
    /// From a state, seeing these in order leads to a later state.
    ghost saw: { Self → List Placed → Self → Type 0 };

    /// Sees one.
    fn note(&mut self, placed: &Placed)
        ensures { saw self.old (placed.now ∷ []) self.new };

    ghost saw_nothing: { (a : Self) → saw a [] a };

    ghost saw_join: { (a b c : Self) (xs ys : List Placed)
        → saw a xs b → saw b ys c → saw a (xs ++ ys) c };
}

/// A watch that shows each event to one that sees places, with the place that it was told last.
#[derive(Drop)]
pub struct Placing<W: PlacedWatch> {
    /// The watch that sees places.
    pub watch: W,
    /// The place of the bit whose events come next.
    pub place: u64,
}

impl<W: PlacedWatch> Watch for Placing<W> {
    ghost use Rattle.std.proofs.Common.{refl, ◌∙◌};
    ghost use Rattle.pdh_placed.specs.laws.Joining.{saw_joined};

    ghost saw = { λ a events b. (b.place ≡ a.place) × W.saw a.watch (map (at_place a.place) events) b.watch };

    ghost saw_nothing = { λ a. (refl, W.saw_nothing a.watch) };

    ghost saw_join = { λ a b c xs ys f g. (g.0 ∙ f.0, saw_joined W.saw W.saw_join a.place b.place a.watch b.watch c.watch xs ys f.0 f.1 g.1) };

    fn note(&mut self, event: &Event) {
        let placed = Placed {
            event: *event,
            place: self.place,
        };
        self.watch.note(&placed);
    }
}
