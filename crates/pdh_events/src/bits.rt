//! Whether some of a frame's slots differ from a bit, and whether most of them are ones.

ghost use Rattle.std.specs.Prelude.{◌≡◌, ◌<◌, All, not, length};
ghost use Rattle.std.specs.Bool.{beq};
ghost use Rattle.std.specs.List.{list_any};
ghost use Rattle.pdh_events.specs.Duties.{most_are_ones as most_are};
ghost use Rattle.pdh_events.specs.Keeping.{bits_at};

use pdh_packed::Packed;

// Whether some of these slots of a frame holds another bit than this.
pub(crate) fn any_differs(slots: &[u16], bit: bool, frame: &Packed) -> bool
    requires { All (λ slot. slot < length frame.now.bits) slots.now }
    ensures { result ≡ list_any (λ at. not (beq at bit)) (bits_at slots.now frame.now.bits) }
{
    let mut differs = false;
    for slot in slots {
        differs |= frame.get(usize::from(*slot)) != bit;
    }
    differs
}

// Whether more than half of these slots of a frame hold ones.
pub(crate) fn most_are_ones(slots: &[u16], frame: &Packed) -> bool
    requires { All (λ slot. slot < length frame.now.bits) slots.now }
    ensures { result ≡ most_are (bits_at slots.now frame.now.bits) }
{
    let mut ones = 0usize;
    for slot in slots {
        ones += usize::from(frame.get(usize::from(*slot)));
    }
    ones > slots.len() / 2
}
