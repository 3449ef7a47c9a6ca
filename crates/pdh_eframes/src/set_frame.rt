//! The frames E2, E3 and E4 as shapes, each by its plan.

use crate::plans::{E2Plan, E3Plan, E4Plan};
use crate::set_plan::{InSets, SET_TRIBS};
use crate::sets::{four_wrong, set_duty, set_mark, set_role, set_service};
use pdh_shape::{Duty, Mark, Marks, Role, Service, Shape};
use std::marker::PhantomData;

/// The frame of the second-order multiplex of ITU-T G.742: 848 bits at 8448 kbit/s for four
/// tributaries of 2048 kbit/s.
pub type E2 = SetFrame<E2Plan>;

/// The frame of the third-order multiplex of ITU-T G.751: 1536 bits at 34368 kbit/s for four
/// tributaries of 8448 kbit/s.
pub type E3 = SetFrame<E3Plan>;

/// The frame of the fourth-order multiplex of ITU-T G.751: 2928 bits at 139264 kbit/s for four
/// tributaries of 34368 kbit/s.
pub type E4 = SetFrame<E4Plan>;

/// The frame of a plan.
#[derive(Drop)]
pub struct SetFrame<P> {
    of: PhantomData<P>,
}

impl<P: InSets> Shape for SetFrame<P> {
    ghost use Rattle.std.specs.Prelude.{refl};
    ghost use Rattle.pdh_eframes.specs.Sets.{in_sets};
    ghost use Rattle.pdh_shape.specs.laws.LawsOfTest.{laws-is_frame, laws-has_marks, laws-has_signal, laws-has_tributaries, laws-reads_evenly, laws-in_turn};

    ghost shape = { in_sets P.signal P.PLAN };

    ghost LEN = { P.PLAN.len };

    const LEN: u32 = P::PLAN.len;

    ghost TRIBS = { 4 };

    const TRIBS: u8 = SET_TRIBS;

    ghost COPIES = { P.PLAN.copies };

    const COPIES: u8 = P::PLAN.copies;

    ghost LOW = { P.PLAN.low };

    const LOW: u32 = P::PLAN.low;

    ghost SIGNAL = { P.PLAN.signal };

    const SIGNAL: u32 = P::PLAN.signal;

    fn role(slot: u32) -> Role {
        set_role(P::signal(), &P::PLAN, slot)
    }

    fn mark(slot: u32) -> Mark {
        set_mark(P::signal().len() as u8, slot)
    }

    fn inverted(_trib: u8) -> bool {
        false
    }

    fn duty(number: u8) -> Duty {
        set_duty(number)
    }

    fn service(number: u8, say: &Service, _odd: bool) -> bool {
        set_service(number, say)
    }

    fn loses(a: &Marks, b: &Marks, c: &Marks, d: &Marks) -> bool {
        four_wrong(a, b, c, d)
    }

    ghost len_is = { refl };

    ghost tribs_is = { refl };

    ghost copies_is = { refl };

    ghost low_is = { refl };

    ghost signal_is = { refl };

    ghost is_frame = { laws-is_frame (in_sets P.signal P.PLAN) P.lawful };

    ghost has_marks = { laws-has_marks (in_sets P.signal P.PLAN) P.lawful };

    ghost has_signal = { laws-has_signal (in_sets P.signal P.PLAN) P.lawful };

    ghost has_tributaries = { laws-has_tributaries (in_sets P.signal P.PLAN) P.lawful };

    ghost reads_evenly = { laws-reads_evenly (in_sets P.signal P.PLAN) P.lawful };

    ghost in_turn = { laws-in_turn (in_sets P.signal P.PLAN) P.lawful };
}
