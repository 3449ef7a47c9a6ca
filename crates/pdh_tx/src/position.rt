//! Where a multiplexer stands in its line.

ghost use Rattle.std.specs.Prelude.{◌≡◌, ◌<◌, ◌^◌, ◌==◌, suc, if◌then◌else◌};
ghost use Rattle.pdh_line.specs.Sending.{Source, odd_before};
ghost use Rattle.pdh_shape.specs.Payload.{is_payload as is_payload_role};
ghost use Rattle.pdh_tx.specs.Node.{odd_within};
ghost use Rattle.pdh_tx.specs.Follows.{Follows};
ghost use Rattle.pdh_tx.specs.NodeState.{HasParity, KeepsParity};

use pdh_shape::{Role, Service, Shape};

/// The slot before which a node stands, and the parities of its information and justifiable slots.
#[derive(Clone, Copy, Debug, PartialEq, Eq)]
pub struct Position {
    /// The number of the frame, counted from 0.
    pub frame: u64,
    /// The number of the slot in the frame.
    pub slot: u32,
    /// Whether the frame before holds an odd number of ones.
    pub last_odd: bool,
    /// Whether this frame so far holds an odd number of ones.
    pub is_odd: bool,
}

// Whether a slot of this role is an information or a justifiable slot.
fn is_payload(role: Role) -> bool
    ensures { result ≡ is_payload_role role }
{
    matches!(role, Role::Info(_) | Role::Just(_))
}

/// What a frame says in a slot: what the next frame is to say, where the slot begins one.
pub fn said(slot: u32, say: Service, next_say: Service) -> Service
    ensures { result ≡ (if slot == 0 then next_say else say) }
{
    if slot == 0 {
        return next_say;
    }
    say
}

/// The position after the bit of a slot.
pub fn after<S: Shape>(at: Position, bit: bool) -> Position
    requires slot { at.slot < S.LEN }
    requires bounded { suc at.frame < 2 ^ 64 }
    ensures follows { Follows S.shape at.frame at.slot result.frame result.slot }
    ensures parity { KeepsParity S.shape bit at result }
{
    let is_odd = at.is_odd ^ (bit & is_payload(S::role(at.slot)));
    if at.slot + 1 == S::LEN {
        return Position {
            frame: at.frame + 1,
            slot: 0,
            last_odd: is_odd,
            is_odd: false,
        };
    }
    Position {
        frame: at.frame,
        slot: at.slot + 1,
        last_odd: at.last_odd,
        is_odd,
    }
}

/// The position after a slot, where `is_odd` is whether its frame holds an odd number of ones up to
/// that slot.
pub fn moved<S: Shape>(at: Position, last: u32, is_odd: bool) -> Position
    requires slot { last < S.LEN }
    requires bounded { suc at.frame < 2 ^ 64 }
    ensures follows { Follows S.shape at.frame last result.frame result.slot }
    ensures parity { (source : Source) → at.last_odd ≡ odd_before S.shape source at.frame
        → is_odd ≡ odd_within S.shape source at.frame (suc last) → HasParity S.shape source result }
{
    if last + 1 == S::LEN {
        return Position {
            frame: at.frame + 1,
            slot: 0,
            last_odd: is_odd,
            is_odd: false,
        };
    }
    Position {
        frame: at.frame,
        slot: last + 1,
        last_odd: at.last_odd,
        is_odd,
    }
}
