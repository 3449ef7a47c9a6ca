//! The remote alarm, as its slots in a frame tell it.

ghost use Rattle.std.specs.Prelude.{◌≡◌, ◌<◌, All, length, filter, map, IfOk};
ghost use Rattle.pdh_shape.specs.declared.role.Duty.TheVariants.{Alarm};
ghost use Rattle.pdh_shape.specs.Frame.{slots};
ghost use Rattle.pdh_runs.specs.Tables.{is_overhead};
ghost use Rattle.pdh_events.specs.Duties.{alarm_bit as alarm_bit_of, agreed, slots_with};
ghost use Rattle.pdh_events.specs.Keeping.{alarm_slot, says_alarm};

use crate::duties::has_duty;
use pdh_packed::Packed;
use pdh_shape::{Duty, Role, Service, Shape};
use std::alloc::{AllocError, Global};

/// A slot whose bit tells the remote alarm.
#[derive(Clone, Copy, Debug, PartialEq, Eq)]
pub struct AlarmSlot {
    /// The slot.
    pub slot: u16,
    /// The bit with which it says alarm.
    pub bit: bool,
}

// With which bit a slot of this role says alarm.
fn alarm_bit<S: Shape>(role: Role) -> bool
    ensures { result ≡ alarm_bit_of S.shape role }
{
    match role {
        Role::Service(number) => {
            let mut says = Service::idle();
            says.alarm = true;
            S::service(number, &says, false)
        }
        _ => true,
    }
}

// The alarm slots, in order, among those that carry no bit of a tributary; or it finds no memory.
pub(crate) fn alarm_slots_of<S: Shape>(
    alloc: Global,
    overhead: &[u16],
) -> Result<Vec<AlarmSlot>, AllocError>
    requires { overhead.now ≡ filter (is_overhead S.shape) (slots S.shape) }
    ensures { IfOk result
        (λ slots. slots.items ≡ map (alarm_slot S.shape) (slots_with S.shape Alarm)) }
{
    let mut slots = Vec::new(alloc);
    for slot in overhead {
        let role = S::role(u32::from(*slot));
        if has_duty::<S>(Duty::Alarm, role) {
            slots.push(AlarmSlot {
                slot: *slot,
                bit: alarm_bit::<S>(role),
            })?;
        }
    }
    Ok(slots)
}

// What the alarm slots of a frame say together, by what stood before it.
pub(crate) fn agreed_alarm(slots: &[AlarmSlot], before: bool, frame: &Packed) -> bool
    requires { All (λ of. of.slot < length frame.now.bits) slots.now }
    ensures { result ≡ agreed before (map (says_alarm frame.now.bits) slots.now) }
{
    let mut some_say = false;
    let mut some_deny = false;
    for of in slots {
        let says = frame.get(usize::from(of.slot)) == of.bit;
        some_say |= says;
        some_deny |= !says;
    }
    if some_say == some_deny {
        before
    } else {
        some_say
    }
}
