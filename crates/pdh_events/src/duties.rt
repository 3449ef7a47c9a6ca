//! The slots of a shape whose service bits have one duty.

ghost use Rattle.std.specs.Prelude.{◌≡◌, filter, IfOk};
ghost use Rattle.pdh_shape.specs.Frame.{slots};
ghost use Rattle.pdh_runs.specs.Tables.{is_overhead};
ghost use Rattle.pdh_events.specs.Duties.{has_duty as has_role_duty, slots_with};

use pdh_shape::{Duty, Role, Shape};
use std::alloc::{AllocError, Global};

// Whether a slot of this role carries a service bit of this duty.
pub(crate) fn has_duty<S: Shape>(duty: Duty, role: Role) -> bool
    ensures { result ≡ has_role_duty S.shape duty role }
{
    match role {
        Role::Service(number) => S::duty(number) == duty,
        _ => false,
    }
}

// The slots of a duty, in order, among those that carry no bit of a tributary; or it finds no memory.
pub(crate) fn slots_of<S: Shape>(
    alloc: Global,
    overhead: &[u16],
    duty: Duty,
) -> Result<Vec<u16>, AllocError>
    requires { overhead.now ≡ filter (is_overhead S.shape) (slots S.shape) }
    ensures { IfOk result (λ slots. slots.items ≡ slots_with S.shape duty) }
{
    let mut slots = Vec::new(alloc);
    for slot in overhead {
        if has_duty::<S>(duty, S::role(u32::from(*slot))) {
            slots.push(*slot)?;
        }
    }
    Ok(slots)
}
