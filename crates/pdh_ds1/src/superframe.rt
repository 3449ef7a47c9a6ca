//! The superframe and the extended superframe as shapes, each by its plan.

ghost use Rattle.std.specs.Prelude.{◌≡◌, ◌<◌};
ghost use Rattle.pdh_ds1.specs.Superframe.{superframe_role as role_in_superframe, superframe_mark as mark_in_superframe, framing_mark as framing_mark_in, IsSuperframePlan};

use crate::{EsfPlan, InSuperframe, SfPlan, SuperframePlan};
use pdh_ds::window_wrong;
use pdh_shape::{Duty, Mark, Marks, Role, Service, Shape};
use std::marker::PhantomData;

/// The superframe of 12 DS1 frames: 2316 bits at 1544 kbit/s.
pub type Ds1Sf = Superframe<SfPlan>;

/// The extended superframe of 24 DS1 frames: 4632 bits at 1544 kbit/s.
pub type Ds1Esf = Superframe<EsfPlan>;

/// The superframe of a plan. It has no tributaries: each bit of its payload is a service bit.
#[derive(Drop)]
pub struct Superframe<P> {
    of: PhantomData<P>,
}

/// What a slot carries: an F bit begins each frame, and the payload follows.
#[tactic(auto, using(crate::proofs::PlanLaws::frame_below, crate::proofs::PlanLaws::frames_few), unfolding(crate::specs::Superframe::superframe_role))]
fn superframe_role<P: InSuperframe>(slot: u32) -> Role
    requires { slot < P.PLAN.len }
    ensures { result ≡ role_in_superframe P.f_bits slot }
{
    if slot % 193 == 0 {
        P::f_bit((slot / 193) as u8)
    } else {
        Role::Service(0)
    }
}

/// Which framing slot a slot of the alignment signal is.
#[tactic(auto, using(crate::proofs::PlanLaws::framing_below, crate::proofs::PlanLaws::framing_apart))]
fn framing_mark(plan: &SuperframePlan, slot: u32) -> Mark
    requires fits { IsSuperframePlan plan.now }
    requires within { slot < plan.now.len }
    ensures { result ≡ framing_mark_in plan.now slot }
{
    Mark::Framing((slot / (plan.len / plan.loss.framing)) as u8)
}

/// Which alignment slot a slot is.
#[tactic(auto, unfolding(crate::specs::Superframe::superframe_mark))]
fn superframe_mark<P: InSuperframe>(slot: u32) -> Mark
    requires { slot < P.PLAN.len }
    ensures { result ≡ mark_in_superframe P.f_bits P.PLAN slot }
{
    match superframe_role::<P>(slot) {
        Role::Align(_) => framing_mark(&P::PLAN, slot),
        _ => Mark::Other,
    }
}

impl<P: InSuperframe> Shape for Superframe<P> {
    ghost use Rattle.std.specs.Prelude.{refl};
    ghost use Rattle.pdh_ds1.specs.Superframe.{in_superframe};
    ghost use Rattle.pdh_shape.specs.laws.LawsOfTest.{laws-is_frame, laws-has_marks, laws-has_signal, laws-has_tributaries, laws-reads_evenly, laws-in_turn};

    ghost shape = { in_superframe P.f_bits P.PLAN };

    ghost LEN = { P.PLAN.len };

    const LEN: u32 = P::PLAN.len;

    ghost TRIBS = { 0 };

    const TRIBS: u8 = 0;

    ghost COPIES = { 0 };

    const COPIES: u8 = 0;

    ghost LOW = { 0 };

    const LOW: u32 = 0;

    ghost SIGNAL = { 0 };

    const SIGNAL: u32 = 0;

    fn role(slot: u32) -> Role {
        superframe_role::<P>(slot)
    }

    fn mark(slot: u32) -> Mark {
        superframe_mark::<P>(slot)
    }

    fn inverted(_trib: u8) -> bool {
        false
    }

    fn duty(_number: u8) -> Duty {
        Duty::Other
    }

    fn service(_number: u8, _say: &Service, _odd: bool) -> bool {
        true
    }

    fn loses(_a: &Marks, _b: &Marks, c: &Marks, d: &Marks) -> bool {
        window_wrong(&P::PLAN.loss, c, d)
    }

    ghost len_is = { refl };

    ghost tribs_is = { refl };

    ghost copies_is = { refl };

    ghost low_is = { refl };

    ghost signal_is = { refl };

    ghost is_frame = { laws-is_frame (in_superframe P.f_bits P.PLAN) P.lawful };

    ghost has_marks = { laws-has_marks (in_superframe P.f_bits P.PLAN) P.lawful };

    ghost has_signal = { laws-has_signal (in_superframe P.f_bits P.PLAN) P.lawful };

    ghost has_tributaries = { laws-has_tributaries (in_superframe P.f_bits P.PLAN) P.lawful };

    ghost reads_evenly = { laws-reads_evenly (in_superframe P.f_bits P.PLAN) P.lawful };

    ghost in_turn = { laws-in_turn (in_superframe P.f_bits P.PLAN) P.lawful };
}
