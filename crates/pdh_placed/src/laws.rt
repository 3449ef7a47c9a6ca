//! Laws of places. The functions do nothing: what they ensure are the laws.

ghost use Rattle.std.specs.Prelude.{◌≡◌, ℕ, Bool, List, map};
ghost use Rattle.pdh_watch.specs.declared.event.Event.{Event};
ghost use Rattle.pdh_events.specs.Chain.{bits_events};
ghost use Rattle.pdh_placed.specs.declared.placed.Placed.{Placed};
ghost use Rattle.pdh_placed.specs.Places.{placed_events};

/// Without their places the events are those that the bits bring, one after another.
pub fn places_leave_the_events()
    ensures { (notes : List Bool → Bool → List Event) (line : List Bool) (place : ℕ) (bits : List Bool)
        → map (λ (placed : Placed). placed.event) (placed_events notes line place bits) ≡ bits_events notes line bits }
{}
