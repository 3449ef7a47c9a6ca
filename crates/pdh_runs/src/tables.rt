//! The tables of a layout, each made from the roles of all slots.

ghost use Rattle.std.specs.Prelude.{◌≡◌, ◌<◌, ℕ, filter, IfOk};
ghost use Rattle.pdh_shape.specs.declared.role.Role.TheVariants.{Just};
ghost use Rattle.pdh_shape.specs.Frame.{slots as slots_of};
ghost use Rattle.pdh_shape.specs.Tributary.{controls, is_just as is_just_role};
ghost use Rattle.pdh_runs.specs.Tables.{AreRoles, AreOverheadRoles, is_overhead, payload_counts, AreEnds, IsTributary, AreTributaries};
ghost use Rattle.pdh_runs.specs.Pieces.{turn};

use crate::run::is_payload;
use pdh_shape::{Role, Shape};
use std::alloc::{AllocError, Global};

/// The slots of a tributary.
#[derive(Drop)]
pub struct Tributary {
    /// Those of its justification control.
    pub control: Vec<u16>,
    /// The turn in which its justifiable slot stands.
    pub just: u16,
}

/// The role of each slot of a frame; or the refusal of memory for them.
pub fn roles<S: Shape>(alloc: Global) -> Result<Vec<Role>, AllocError>
    ensures { IfOk result (λ roles. AreRoles S.shape roles.items) }
{
    let mut roles = Vec::with_capacity(alloc, S::LEN as usize)?;
    for slot in 0..S::LEN {
        roles.push(S::role(slot))?;
    }
    Ok(roles)
}

/// How many payload slots stand before each slot, and before the frame's end; or the refusal of
/// memory for these numbers.
pub fn payload<S: Shape>(alloc: Global, roles: &[Role]) -> Result<Vec<u16>, AllocError>
    requires { AreRoles S.shape roles.now }
    ensures { IfOk result (λ payload. payload.items ≡ payload_counts S.shape) }
{
    let mut payload = Vec::with_capacity(alloc, S::LEN as usize + 1)?;
    let mut before = 0u16;
    for slot in 0..S::LEN {
        payload.push(before)?;
        if is_payload(roles[slot as usize]) {
            before += 1;
        }
    }
    payload.push(before)?;
    Ok(payload)
}

/// The slots that carry no bit of a tributary, in order; or the refusal of memory for them.
pub fn overhead<S: Shape>(alloc: Global, roles: &[Role]) -> Result<Vec<u16>, AllocError>
    requires { AreRoles S.shape roles.now }
    ensures { IfOk result (λ overhead. overhead.items ≡ filter (is_overhead S.shape) (slots_of S.shape)) }
{
    let mut overhead = Vec::new(alloc);
    for slot in 0..S::LEN {
        if !is_payload(roles[slot as usize]) {
            overhead.push(slot as u16)?;
        }
    }
    Ok(overhead)
}

/// The roles of the slots that carry no bit of a tributary, in order; or the refusal of memory for
/// them.
pub fn overhead_roles<S: Shape>(alloc: Global, roles: &[Role]) -> Result<Vec<Role>, AllocError>
    requires { AreRoles S.shape roles.now }
    ensures { IfOk result (λ list. AreOverheadRoles S.shape list.items) }
{
    let mut list = Vec::new(alloc);
    for slot in 0..S::LEN {
        let role = roles[slot as usize];
        if !is_payload(role) {
            list.push(role)?;
        }
    }
    Ok(list)
}

/// For each slot the next that is no payload slot where it is one, or is one where it is none, or
/// the frame's end; or the refusal of memory for them.
pub fn ends<S: Shape>(alloc: Global, roles: &[Role]) -> Result<Vec<u16>, AllocError>
    requires { AreRoles S.shape roles.now }
    ensures { IfOk result (λ ends. AreEnds S.shape ends.items) }
{
    let len = S::LEN as usize;
    let mut ends = vec![in alloc; S::LEN as u16; len]?;
    for done in 1..len {
        let slot = len - 1 - done;
        let end = if is_payload(roles[slot]) == is_payload(roles[slot + 1]) {
            ends[slot + 1]
        } else {
            slot as u16 + 1
        };
        ends[slot] = end;
    }
    Ok(ends)
}

/// The slots of each tributary; or the refusal of memory for them.
pub fn tributaries<S: Shape>(
    alloc: Global,
    roles: &[Role],
    payload: &[u16],
) -> Result<Vec<Tributary>, AllocError>
    requires roles { AreRoles S.shape roles.now }
    requires payload { payload.now ≡ payload_counts S.shape }
    ensures { IfOk result (λ tributaries. AreTributaries S.shape S.shape.tribs tributaries.items) }
{
    let mut tributaries = Vec::with_capacity(alloc, usize::from(S::TRIBS))?;
    for trib in 0..S::TRIBS {
        let control = control::<S>(alloc, roles, trib)?;
        let just = just::<S>(roles, payload, trib);
        tributaries.push(Tributary { control, just })?;
    }
    Ok(tributaries)
}

// The slots of a tributary's justification control, in order.
fn control<S: Shape>(alloc: Global, roles: &[Role], trib: u8) -> Result<Vec<u16>, AllocError>
    requires { AreRoles S.shape roles.now }
    ensures { IfOk result (λ control. control.items ≡ filter (λ t. controls trib (S.shape.role t)) (slots_of S.shape)) }
{
    let mut control = Vec::new(alloc);
    for slot in 0..S::LEN {
        if roles[slot as usize].controls(trib) {
            control.push(slot as u16)?;
        }
    }
    Ok(control)
}

// The turn in which a tributary's justifiable slot stands.
fn just<S: Shape>(roles: &[Role], payload: &[u16], trib: u8) -> u16
    requires known { trib < S.TRIBS }
    requires roles { AreRoles S.shape roles.now }
    requires payload { payload.now ≡ payload_counts S.shape }
    ensures { (t : ℕ) → t < S.LEN → S.shape.role t ≡ Just trib → result ≡ turn S.shape t }
{
    for slot in 0..S::LEN {
        if is_just(roles[slot as usize], trib) {
            return payload[slot as usize] / u16::from(S::TRIBS);
        }
    }
    0
}

// Whether a slot of this role is the justifiable slot of a tributary.
fn is_just(role: Role, trib: u8) -> bool
    ensures { result ≡ is_just_role trib role }
{
    match role {
        Role::Just(of) => of == trib,
        _ => false,
    }
}
