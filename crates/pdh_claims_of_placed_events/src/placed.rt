//! Of events with their places.

ghost use Rattle.std.specs.Prelude.{◌≡◌, ◌<◌, ◌+◌, ◌^◌, suc, Bool, List, [], ◌∷◌, ◌++◌, length, map};
ghost use Rattle.pdh_placed.specs.Places.{at_place};

use pdh_packed::Packed;
use pdh_placed::{PlacedWatch, Placing, Recorded};
use pdh_watch::{Event, Watch};

/// A line that has taken bits has all of them.
pub fn a_bit_left_out<R: Recorded, W: PlacedWatch>(
    recorded: &mut R,
    bits: &Packed,
    watch: &mut Placing<W>,
)
    requires stands { (line : List Bool) × R.stands recorded.old line }
    requires places { watch.old.place + length bits.now.bits < 2 ^ 64 }
    ensures { (line : List Bool) → R.stands recorded.old line → R.stands recorded.new (line ++ bits.now.bits) }
{
    recorded.take(bits, watch);
}

/// An event is shown, with the place that was told.
pub fn event_not_shown<W: PlacedWatch>(watch: &mut Placing<W>, event: &Event)
    ensures { W.saw watch.old.watch (record { event = event.now; place = watch.old.place } ∷ []) watch.new.watch }
{
    watch.note(event);
}

/// After some bits the next place is as many bits on.
pub fn next_place_is_the_first<R: Recorded, W: PlacedWatch>(
    recorded: &mut R,
    bits: &Packed,
    watch: &mut Placing<W>,
)
    requires stands { (line : List Bool) × R.stands recorded.old line }
    requires places { watch.old.place + length bits.now.bits < 2 ^ 64 }
    ensures { watch.new.place ≡ watch.old.place + length bits.now.bits }
{
    recorded.take(bits, watch);
}

/// Of two bits each one's events have its own place.
pub fn one_place_for_all<R: Recorded, W: PlacedWatch>(
    recorded: &mut R,
    bits: &Packed,
    watch: &mut Placing<W>,
)
    requires stands { (line : List Bool) × R.stands recorded.old line }
    requires places { watch.old.place + length bits.now.bits < 2 ^ 64 }
    ensures { (line : List Bool) (one two : Bool) → R.stands recorded.old line → bits.now.bits ≡ one ∷ two ∷ []
        → W.saw watch.old.watch (map (at_place watch.old.place) ((R.meaning recorded.old).notes line one)
        ++ (map (at_place (suc watch.old.place)) ((R.meaning recorded.old).notes (line ++ one ∷ []) two) ++ [])) watch.new.watch }
{
    recorded.take(bits, watch);
}

/// The first bit's events have the place that was told.
pub fn places_from_zero<R: Recorded, W: PlacedWatch>(
    recorded: &mut R,
    bits: &Packed,
    watch: &mut Placing<W>,
)
    requires stands { (line : List Bool) × R.stands recorded.old line }
    requires places { watch.old.place + length bits.now.bits < 2 ^ 64 }
    ensures { (line : List Bool) (bit : Bool) → R.stands recorded.old line → bits.now.bits ≡ bit ∷ []
        → W.saw watch.old.watch (map (at_place watch.old.place) ((R.meaning recorded.old).notes line bit) ++ []) watch.new.watch }
{
    recorded.take(bits, watch);
}
