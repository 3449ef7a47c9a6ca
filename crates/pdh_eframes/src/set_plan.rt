//! What tells a frame in sets: its numbers and its alignment signal.

ghost use Rattle.std.specs.Prelude.{◌≡◌, true, Bool, List};
ghost use Rattle.pdh_shape.specs.KeptLaws.{keeps_laws};
ghost use Rattle.pdh_eframes.specs.Sets.{in_sets, IsSetPlan};
ghost use Rattle.pdh_eframes.specs.declared.set_plan.SetPlan.{SetPlan};

/// Tributaries of a frame in sets.
pub const SET_TRIBS: u8 = 4;

/// The numbers of a frame of four tributaries in sets of equal length, beside its alignment signal.
#[derive(Clone, Copy, Debug, PartialEq, Eq)]
pub struct SetPlan {
    /// Slots in a frame.
    pub len: u32,
    /// Slots of the alignment signal, with which a frame begins.
    pub signal: u32,
    /// Slots in a set.
    pub set: u32,
    /// Sets in a frame.
    pub sets: u32,
    /// The first slot that carries a bit of a tributary.
    pub first_info: u8,
    /// Copies of each tributary's justification control.
    pub copies: u8,
    /// The least number of bits of a tributary that a frame carries.
    pub low: u32,
}

/// A frame of four tributaries in sets of equal length, told by its numbers and its alignment
/// signal.
pub trait InSets: Drop {
    ghost PLAN: { SetPlan };

    /// The numbers.
    const PLAN: SetPlan;

    ghost signal: { List Bool };

    /// The alignment signal.
    fn signal() -> &'static [bool]
        ensures { result.now ≡ signal };

    /// The numbers and the signal fit together.
    ghost is_plan: { IsSetPlan signal PLAN };

    /// The frame keeps the laws of a shape.
    ghost lawful: { keeps_laws (in_sets signal PLAN) ≡ true };
}
