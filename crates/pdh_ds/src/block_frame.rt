//! The frames DS2 and DS3 as shapes, each by its plan.

use crate::blocks::{block_mark, block_role};
use crate::loss::loses;
use crate::{Ds2Plan, Ds3Plan, Ds3cPlan, InBlocks};
use pdh_shape::{Duty, Mark, Marks, Role, Service, Shape};
use std::marker::PhantomData;

/// The frame of the second-order multiplex of ANSI T1.107: 1176 bits at 6312 kbit/s for four
/// tributaries of 1544 kbit/s.
pub type Ds2 = BlockFrame<Ds2Plan>;

/// The frame of the third-order multiplex of ANSI T1.107, in the M23 application: 4760 bits at
/// 44736 kbit/s for seven tributaries of 6312 kbit/s.
pub type Ds3 = BlockFrame<Ds3Plan>;

/// The frame of the third-order multiplex of ANSI T1.107 with C-bit parity: 4760 bits at 44736 kbit/s for seven tributaries
/// that are locked to it, of 671 bits in each frame.
pub type Ds3C = BlockFrame<Ds3cPlan>;

/// The frame of a plan.
#[derive(Drop)]
pub struct BlockFrame<P> {
    of: PhantomData<P>,
}

impl<P: InBlocks> Shape for BlockFrame<P> {
    ghost use Rattle.std.specs.Prelude.{refl};
    ghost use Rattle.pdh_ds.specs.Blocks.{in_blocks};
    ghost use Rattle.pdh_shape.specs.laws.LawsOfTest.{laws-is_frame, laws-has_marks, laws-has_signal, laws-has_tributaries, laws-reads_evenly, laws-in_turn};

    ghost shape = { in_blocks P.PLAN P.overhead P.inverted P.duty P.service };

    ghost LEN = { P.PLAN.len };

    const LEN: u32 = P::PLAN.len;

    ghost TRIBS = { P.PLAN.tribs };

    const TRIBS: u8 = P::PLAN.tribs;

    ghost COPIES = { P.PLAN.copies };

    const COPIES: u8 = P::PLAN.copies;

    ghost LOW = { P.PLAN.low };

    const LOW: u32 = P::PLAN.low;

    ghost SIGNAL = { 0 };

    const SIGNAL: u32 = 0;

    fn role(slot: u32) -> Role {
        block_role::<P>(slot)
    }

    fn mark(slot: u32) -> Mark {
        block_mark::<P>(slot)
    }

    fn inverted(trib: u8) -> bool {
        P::inverted(trib)
    }

    fn duty(number: u8) -> Duty {
        P::duty(number)
    }

    fn service(number: u8, say: &Service, odd: bool) -> bool {
        P::service(number, say, odd)
    }

    fn loses(_a: &Marks, b: &Marks, c: &Marks, d: &Marks) -> bool {
        loses(&P::PLAN.loss, b, c, d)
    }

    ghost len_is = { refl };

    ghost tribs_is = { refl };

    ghost copies_is = { refl };

    ghost low_is = { refl };

    ghost signal_is = { refl };

    ghost is_frame = { laws-is_frame (in_blocks P.PLAN P.overhead P.inverted P.duty P.service) P.lawful };

    ghost has_marks = { laws-has_marks (in_blocks P.PLAN P.overhead P.inverted P.duty P.service) P.lawful };

    ghost has_signal = { laws-has_signal (in_blocks P.PLAN P.overhead P.inverted P.duty P.service) P.lawful };

    ghost has_tributaries = { laws-has_tributaries (in_blocks P.PLAN P.overhead P.inverted P.duty P.service) P.lawful };

    ghost reads_evenly = { laws-reads_evenly (in_blocks P.PLAN P.overhead P.inverted P.duty P.service) P.lawful };

    ghost in_turn = { laws-in_turn (in_blocks P.PLAN P.overhead P.inverted P.duty P.service) P.lawful };
}
