//! The plans of the frames of ITU-T G.742 and G.751.

use crate::set_plan::{InSets, SetPlan};

/// The numbers of ITU-T G.742, for E2.
pub const E2_PLAN: SetPlan = SetPlan {
    len: 848,
    signal: 10,
    set: 212,
    sets: 4,
    first_info: 12,
    copies: 3,
    low: 205,
};

/// The plan of ITU-T G.742, for E2.
#[derive(Drop)]
pub struct E2Plan;

impl InSets for E2Plan {
    ghost use Rattle.pdh_eframes.specs.Plans.{e2_signal, e2_plan};
    ghost use Rattle.pdh_eframes.specs.laws.E2Laws.{e2_is_plan, e2_keeps_laws};

    ghost PLAN = { e2_plan };

    const PLAN: SetPlan = E2_PLAN;

    ghost signal = { e2_signal };

    fn signal() -> &'static [bool] {
        &[
            true, true, true, true, false, true, false, false, false, false,
        ]
    }

    ghost is_plan = { e2_is_plan };

    ghost lawful = { e2_keeps_laws };
}

/// The numbers of ITU-T G.751 at 34368 kbit/s, for E3.
pub const E3_PLAN: SetPlan = SetPlan {
    len: 1536,
    signal: 10,
    set: 384,
    sets: 4,
    first_info: 12,
    copies: 3,
    low: 377,
};

/// The plan of ITU-T G.751 at 34368 kbit/s, for E3.
#[derive(Drop)]
pub struct E3Plan;

impl InSets for E3Plan {
    ghost use Rattle.pdh_eframes.specs.Plans.{e2_signal, e3_plan};
    ghost use Rattle.pdh_eframes.specs.laws.E3Laws.{e3_is_plan, e3_keeps_laws};

    ghost PLAN = { e3_plan };

    const PLAN: SetPlan = E3_PLAN;

    ghost signal = { e2_signal };

    fn signal() -> &'static [bool] {
        E2Plan::signal()
    }

    ghost is_plan = { e3_is_plan };

    ghost lawful = { e3_keeps_laws };
}

/// The numbers of ITU-T G.751 at 139264 kbit/s, for E4.
pub const E4_PLAN: SetPlan = SetPlan {
    len: 2928,
    signal: 12,
    set: 488,
    sets: 6,
    first_info: 16,
    copies: 5,
    low: 722,
};

/// The plan of ITU-T G.751 at 139264 kbit/s, for E4.
#[derive(Drop)]
pub struct E4Plan;

impl InSets for E4Plan {
    ghost use Rattle.pdh_eframes.specs.Plans.{e4_signal, e4_plan};
    ghost use Rattle.pdh_eframes.specs.laws.E4Laws.{e4_is_plan, e4_keeps_laws};

    ghost PLAN = { e4_plan };

    const PLAN: SetPlan = E4_PLAN;

    ghost signal = { e4_signal };

    fn signal() -> &'static [bool] {
        &[
            true, true, true, true, true, false, true, false, false, false, false, false,
        ]
    }

    ghost is_plan = { e4_is_plan };

    ghost lawful = { e4_keeps_laws };
}
