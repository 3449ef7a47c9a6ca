//! What callers may rely on of the frames DS2 and DS3.

ghost use Rattle.std.specs.Prelude.{◌≡◌, ◌<◌, true, false};

use pdh_ds::{BlockFrame, Ds2, Ds3, Ds3C, InBlocks};
use pdh_shape::{Marks, Role, Service, Shape};

/// With C-bit parity a frame has no copy of a justification control.
pub fn c_bits_as_control_copies() -> u8
    ensures { result ≡ 0 }
{
    Ds3C::COPIES
}

/// The third block of a DS3 frame begins with the first control copy of the first tributary.
#[tactic(auto, unfolding(pdh_ds::specs::Blocks::block_role))]
pub fn ds3_control_slot_moved() -> Role
    ensures { result ≡ Role.Control 0 0 }
{
    Ds3::role(170)
}

/// Framing slots of the frame before count too: two wrong ones at its end lose alignment of DS2.
#[tactic(auto, unfolding(pdh_ds::specs::Loss::window_wrong))]
pub fn framing_of_this_frame_alone(a: &Marks, b: &Marks) -> bool
    ensures { result ≡ true }
{
    let before = Marks {
        framing: 0b1100_0000,
        multi: false,
    };
    let here = Marks {
        framing: 0,
        multi: false,
    };
    Ds2::loses(a, b, &before, &here)
}

/// The second tributary of DS2 is inverted on its line.
pub fn inverts_at_neither_end() -> bool
    ensures { result ≡ true }
{
    Ds2::inverted(1)
}

/// Wrong multiframe slots in two frames, behind a frame without, complete no loss of alignment.
#[tactic(auto, unfolding(pdh_ds::specs::Loss::window_wrong))]
pub fn lost_at_two_multiframe_bits(a: &Marks) -> bool
    ensures { result ≡ false }
{
    let right = Marks {
        framing: 0,
        multi: false,
    };
    let wrong = Marks {
        framing: 0,
        multi: true,
    };
    Ds3::loses(a, &right, &wrong, &wrong)
}

/// Path parity is the parity of the frame before.
pub fn path_parity_always_one(say: &Service, odd: bool) -> bool
    ensures { result ≡ odd }
{
    Ds3C::service(4, say, odd)
}

/// No signal begins a frame in blocks: its alignment slots are spread over it.
pub fn signal_of_spread_slots<P: InBlocks>() -> u32
    ensures { result ≡ 0 }
{
    BlockFrame::<P>::SIGNAL
}
