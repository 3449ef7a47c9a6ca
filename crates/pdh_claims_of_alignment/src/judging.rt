//! Claims of the judging of a line.

ghost use Rattle.std.specs.Prelude.{◌≡◌, ◌-◌, ◌^◌, false, [], length, IfOk};
ghost use Rattle.pdh_shape.specs.Frame.{is_right};
ghost use Rattle.pdh_line.specs.Tracking.{track};
ghost use Rattle.pdh_align.specs.Aligning.{frame_back};
ghost use Rattle.pdh_judging.specs.Judged.{capped, count_judged, is_any, is_right_frame};

use pdh_align::{Aligner, Step};
use pdh_judging::{Judged, judge, judged_after};
use pdh_packed::Packed;
use pdh_shape::Shape;
use std::alloc::{AllocError, Global};

/// Four right frames of four tell no shape, neither at the top nor below it.
pub fn four_right_frames_are_enough(len: u32, bits: u64) -> (bool, bool)
    ensures { result ≡ record { 0 = false; 1 = false } }
{
    let judged = Judged {
        frames: 4,
        right: 4,
    };
    (judged.at_top(len, bits), judged.below())
}

/// At the top of a chain half of the frames are not enough.
pub fn half_is_enough_at_the_top(len: u32, bits: u64) -> bool
    ensures { result ≡ false }
{
    let judged = Judged {
        frames: 12,
        right: 6,
    };
    judged.at_top(len, bits)
}

/// The frame that completes a loss is judged, and isn't right.
pub fn frame_of_a_loss_not_judged<S: Shape>(aligner: &Aligner<S>) -> Judged
    requires { aligner.now.ready ≡ [] }
    ensures { result ≡ record { frames = 5; right = 3 } }
{
    let judged = Judged {
        frames: 4,
        right: 3,
    };
    judged_after(judged, Step::Lost, aligner)
}

/// A count that has reached its type's end stands there.
pub fn full_count_begins_anew<S: Shape>(aligner: &Aligner<S>) -> Judged
    requires { aligner.now.ready ≡ [] }
    ensures { result.frames ≡ 2 ^ 64 - 1 }
{
    let judged = Judged {
        frames: u64::MAX,
        right: 3,
    };
    judged_after(judged, Step::Lost, aligner)
}

/// A delivered frame that isn't right is judged, and not counted as right.
pub fn wrong_frame_counted_as_right<S: Shape>(aligner: &Aligner<S>) -> Judged
    requires one { length aligner.now.ready ≡ 1 }
    requires wrong { is_right S.shape (frame_back aligner.now.ready 0) ≡ false }
    ensures { result ≡ record { frames = 5; right = 3 } }
{
    let judged = Judged {
        frames: 4,
        right: 3,
    };
    judged_after(judged, Step::Frame, aligner)
}

/// The frames of a whole line are judged: all that stand behind three in a row, and the right ones of them.
#[tactic(auto, unfolding(pdh_judging::specs::Judged::judged_in))]
pub fn last_bit_not_judged<S: Shape>(alloc: Global, line: &Packed) -> Result<Judged, AllocError>
    ensures frames { IfOk result (λ judged. judged.frames ≡ capped (count_judged is_any 0 (track S.shape line.now.bits))) }
    ensures right { IfOk result (λ judged. judged.right ≡ capped (count_judged (is_right_frame S.shape) 0 (track S.shape line.now.bits))) }
{
    judge::<S>(alloc, line)
}
