//! The judgement of a frame's alignment signal.

ghost use Rattle.std.specs.Prelude.{◌≡◌, length};
ghost use Rattle.pdh_shape.specs.Frame.{is_right as is_right_in};

use pdh_packed::Packed;
use pdh_shape::Shape;

/// Whether every alignment slot of a frame has its bit.
#[tactic(auto, unfolding(pdh_shape::specs::Frame::is_right))]
pub fn is_right<S: Shape>(frame: &Packed) -> bool
    requires whole { length frame.now.bits ≡ S.LEN }
    ensures { result ≡ is_right_in S.shape frame.now.bits }
{
    let mut right = true;
    for slot in 0..S::LEN {
        right &= !S::role(slot).breaks(frame.get(slot as usize));
    }
    right
}
