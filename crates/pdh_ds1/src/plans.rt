//! The plans of the superframe and of the extended superframe (ANSI T1.403).

use crate::{InSuperframe, SuperframePlan};
use pdh_ds::LossRule;
use pdh_shape::Role;

/// The numbers of the superframe of 12 frames.
pub const SF_PLAN: SuperframePlan = SuperframePlan {
    len: 2316,
    frames: 12,
    loss: LossRule {
        framing: 12,
        window: 4,
        wrong: 2,
    },
};

/// The plan of the superframe of 12 frames.
#[derive(Drop)]
pub struct SfPlan;

impl InSuperframe for SfPlan {
    ghost use Rattle.pdh_ds1.specs.Plans.{sf_plan, sf_f_bits};
    ghost use Rattle.pdh_ds1.specs.laws.SfLaws.{sf_is_plan, sf_keeps_laws};

    ghost PLAN = { sf_plan };

    const PLAN: SuperframePlan = SF_PLAN;

    ghost f_bits = { sf_f_bits };

    fn f_bit(frame: u8) -> Role {
        match frame {
            0 | 4 | 5 | 7 | 8 | 9 => Role::Align(true),
            _ => Role::Align(false),
        }
    }

    ghost is_plan = { sf_is_plan };

    ghost lawful = { sf_keeps_laws };
}

/// The numbers of the extended superframe of 24 frames.
pub const ESF_PLAN: SuperframePlan = SuperframePlan {
    len: 4632,
    frames: 24,
    loss: LossRule {
        framing: 6,
        window: 4,
        wrong: 2,
    },
};

/// The plan of the extended superframe of 24 frames.
#[derive(Drop)]
pub struct EsfPlan;

impl InSuperframe for EsfPlan {
    ghost use Rattle.pdh_ds1.specs.Plans.{esf_plan, esf_f_bits};
    ghost use Rattle.pdh_ds1.specs.laws.EsfLaws.{esf_is_plan, esf_keeps_laws};

    ghost PLAN = { esf_plan };

    const PLAN: SuperframePlan = ESF_PLAN;

    ghost f_bits = { esf_f_bits };

    fn f_bit(frame: u8) -> Role {
        match frame {
            3 | 7 | 15 => Role::Align(false),
            11 | 19 | 23 => Role::Align(true),
            1 | 5 | 9 | 13 | 17 | 21 => Role::Service(1),
            _ => Role::Service(2),
        }
    }

    ghost is_plan = { esf_is_plan };

    ghost lawful = { esf_keeps_laws };
}
