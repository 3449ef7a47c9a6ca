//! What tells a superframe: its numbers and its F bits.

ghost use Rattle.std.specs.Prelude.{◌≡◌, ◌<◌, true, List};
ghost use Rattle.pdh_shape.specs.declared.role.Role.{Role};
ghost use Rattle.pdh_shape.specs.KeptLaws.{keeps_laws};
ghost use Rattle.pdh_ds1.specs.Superframe.{in_superframe, f_bit_at, IsSuperframePlan};
ghost use Rattle.pdh_ds1.specs.declared.plan.SuperframePlan.{SuperframePlan};

use pdh_ds::LossRule;
use pdh_shape::Role;

/// The numbers of a superframe of DS1 frames.
#[derive(Clone, Copy, Debug, PartialEq, Eq)]
pub struct SuperframePlan {
    /// Slots in a superframe.
    pub len: u32,
    /// Frames in a superframe.
    pub frames: u32,
    /// When alignment is lost.
    pub loss: LossRule,
}

/// A superframe of DS1 frames, told by its numbers and its F bits.
pub trait InSuperframe: Drop {
    ghost PLAN: { SuperframePlan };

    /// The numbers.
    const PLAN: SuperframePlan;

    ghost f_bits: { List Role };

    /// What the F bit of a frame carries, by the frame's number in the superframe.
    fn f_bit(frame: u8) -> Role
        requires { frame < PLAN.frames }
        ensures { result ≡ f_bit_at f_bits frame };

    /// The numbers fit together.
    ghost is_plan: { IsSuperframePlan PLAN };

    /// The superframe keeps the laws of a shape.
    ghost lawful: { keeps_laws (in_superframe f_bits PLAN) ≡ true };
}
