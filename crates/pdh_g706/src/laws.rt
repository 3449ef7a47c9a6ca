//! Laws of framed streams. The functions do nothing: what they ensure are the laws.

ghost use Rattle.std.specs.Prelude.{◌≡◌, ◌*◌, ◌≤◌, Bool, List, [], ◌++◌, length};
ghost use Rattle.pdh_g706.specs.Tracking.{e1_far};
ghost use Rattle.pdh_events.specs.Chain.{bits_events};
ghost use Rattle.pdh_g706.specs.Events.{e1_bit_events, e1_events};

/// The payload of a stream has at most 496 of each 512 of the stream's bits.
pub fn payload_fits_the_stream()
    ensures { (line : List Bool) → 512 * length (e1_far line) ≤ 496 * length line }
{}

/// The events of a line come bit after bit: those of its first bits, and then those of the bits after them.
pub fn events_come_bit_by_bit()
    ensures whole { (line : List Bool) → bits_events e1_bit_events [] line ≡ e1_events line }
    ensures more { (line bits : List Bool) → e1_events (line ++ bits) ≡ e1_events line ++ bits_events e1_bit_events line bits }
{}
