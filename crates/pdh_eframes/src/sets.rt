//! What the slots of a frame in sets carry by its plan, and when it loses alignment.

// Frames in sets of equal length, as ITU-T G.742 and G.751 have them for four tributaries.
ghost use Rattle.std.specs.Prelude.{◌≡◌, ◌<◌};
ghost use Rattle.pdh_eframes.specs.Sets.{IsSetPlan, set_role as role_in_sets, set_mark as mark_in_sets, set_service as service_in_sets, set_duty as duty_in_sets, four_wrong as are_four_wrong};

use crate::SetPlan;
use pdh_shape::{Duty, Mark, Marks, Role, Service};

/// What a slot carries in a frame with this alignment signal and these numbers.
#[tactic(auto, unfolding(crate::specs::Sets::set_role))]
pub fn set_role(signal: &[bool], plan: &SetPlan, slot: u32) -> Role
    requires fits { IsSetPlan signal.now plan.now }
    requires within { slot < plan.now.len }
    ensures { result ≡ role_in_sets signal.now plan.now slot }
{
    let set = plan.set;
    if (slot as usize) < signal.len() {
        Role::Align(signal[slot as usize])
    } else if slot < u32::from(plan.first_info) {
        Role::Service(if slot as usize == signal.len() { 0 } else { 1 })
    } else if set <= slot && slot % set < 4 {
        Role::Control((slot % set) as u8, (slot / set - 1) as u8)
    } else if slot / set == plan.sets - 1 && slot % set < 8 {
        Role::Just((slot % set).saturating_sub(4) as u8)
    } else {
        Role::Info((slot % 4) as u8)
    }
}

/// Which alignment slot a slot is, behind a signal of so many slots.
#[tactic(auto, unfolding(crate::specs::Sets::set_mark))]
pub fn set_mark(signal: u8, slot: u32) -> Mark
    ensures { result ≡ mark_in_sets signal slot }
{
    if slot < u32::from(signal) {
        Mark::Framing(slot as u8)
    } else {
        Mark::Other
    }
}

/// The service bit of a number: the remote alarm and the national bits.
pub fn set_service(number: u8, say: &Service) -> bool
    ensures { result ≡ service_in_sets number say.now }
{
    match number {
        0 => say.alarm,
        _ => true,
    }
}

/// What the service bit of a number tells.
pub fn set_duty(number: u8) -> Duty
    ensures { result ≡ duty_in_sets number }
{
    match number {
        0 => Duty::Alarm,
        _ => Duty::Other,
    }
}

/// Whether the alignment signal is wrong in each of four frames.
#[tactic(auto, unfolding(crate::specs::Sets::four_wrong))]
pub fn four_wrong(a: &Marks, b: &Marks, c: &Marks, d: &Marks) -> bool
    ensures { result ≡ are_four_wrong a.now b.now c.now d.now }
{
    a.framing > 0 && b.framing > 0 && c.framing > 0 && d.framing > 0
}
