//! The frames DS2 and DS3 of ANSI T1.107, and the parity of bits.
//! It knows frames alone, and no line and no chain.
#![tactic(auto)]

mod block_frame;
mod block_plan;
mod blocks;
mod loss;
mod ones;
mod plans;

pub use block_frame::{BlockFrame, Ds2, Ds3, Ds3C};
pub use block_plan::{BlockPlan, InBlocks};
pub use loss::{LossRule, window_wrong};
pub use ones::parity;
pub use plans::{DS2_PLAN, DS3_PLAN, DS3C_PLAN, Ds2Plan, Ds3Plan, Ds3cPlan};
