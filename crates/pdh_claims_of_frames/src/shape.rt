//! What callers may rely on of the roles of slots and of the majority of control copies.

ghost use Rattle.std.specs.Prelude.{◌≡◌, ◌<◌, ◌*◌, ◌%◌, true, false};

use pdh_shape::{Role, Service, majority};

/// The idle service bits tell no error.
pub fn idle_with_an_error() -> Service
    ensures alarm { result.alarm ≡ false }
    ensures febe { result.febe ≡ true }
{
    Service::idle()
}

/// A justifiable slot carries nothing in a frame without an additional bit of its tributary, and nothing of another tributary.
pub fn justifiable_slot_always_read(trib: u8, other: u8) -> (bool, bool)
    requires { other < trib }
    ensures without { result.0 ≡ false }
    ensures other { result.1 ≡ false }
{
    (
        Role::Just(trib).reads(trib, false),
        Role::Just(trib).reads(other, true),
    )
}

/// Fewer ones than half of the copies are no majority.
pub fn majority_at_half(ones: u8, copies: u8) -> bool
    requires odd { copies % 2 ≡ 1 }
    requires fewer { 2 * ones < copies }
    ensures { result ≡ false }
{
    majority(ones, copies)
}
