//! A law of the port in memory. The function does nothing: what it ensures is the law.
ghost use Rattle.std.specs.Prelude.{◌≡◌, ◌<◌, ℕ, IsTrue};
ghost use Rattle.pdh_edge.specs.declared.mem_port.MemPort.{MemPort as APort};
ghost use Rattle.pdh_edge.specs.MemLists.{bits_held, room_of};

use crate::{Drain, MemPort, Port};

/// No call that puts bits failed where each list has fewer bits now than there was room for before.
pub fn no_put_into_room_fails()
    ensures { (old new : APort) → ⟦<MemPort as Port>⟧.kept old new
        → ((k : ℕ) → IsTrue ((⟦<MemPort as Drain>⟧.outputs new).holds k)
        → bits_held (⟦<MemPort as Drain>⟧.outputs new) k < room_of old k)
        → ⟦<MemPort as Drain>⟧.drain_faults new ≡ ⟦<MemPort as Drain>⟧.drain_faults old }
{}
