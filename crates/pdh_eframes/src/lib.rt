//! The frames E2, E3 and E4 of ITU-T G.742 and G.751.
//! It knows frames alone, and no line and no chain.
#![tactic(auto)]

mod plans;
mod set_frame;
mod set_plan;
mod sets;

pub use plans::{E2_PLAN, E2Plan, E3_PLAN, E3Plan, E4_PLAN, E4Plan};
pub use set_frame::{E2, E3, E4, SetFrame};
pub use set_plan::{InSets, SET_TRIBS, SetPlan};
