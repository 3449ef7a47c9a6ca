//! The payload of a frame, on its way to the drain.

ghost use Rattle.std.specs.Prelude.{◌≡◌, ◌≤◌, ◌+◌, [], length, take, drop, IfOk};

use pdh_packed::{BitRing, Packed};
use std::alloc::{AllocError, Global};
use std::marker::Model;

/// How many bits of a frame are payload: all but the first eight.
const PAYLOAD_BITS: u32 = 248;

/// The payload of a frame. Only `open` takes memory.
#[derive(Drop)]
pub(crate) struct Payload {
    bits: Packed,
}

impl Model for Payload {
    ghost use Rattle.std.specs.Prelude.{◌≡◌, List, Bool};

    ghost Value = { List Bool };

    ghost view = { λ p. p.bits.bits };

    ghost invariant = { λ p. p.bits.capacity ≡ 248 };
}

impl Payload {
    /// No bits yet, with room for those of a frame.
    pub(crate) fn open(alloc: Global) -> Result<Payload, AllocError>
        ensures { IfOk result (λ payload. payload ≡ []) }
    {
        let bits = Packed::open(alloc, PAYLOAD_BITS as usize)?;
        Ok(Payload { bits })
    }

    /// Takes the payload of the frame that begins at this bit of those that are held, in place of what it had.
    pub(crate) fn load(&mut self, held: &BitRing, start: u32)
        requires { start + 256 ≤ length held.now.bits }
        ensures { self.new ≡ take 248 (drop (start + 8) held.now.bits) }
    {
        // a place fits, since a length does
        let _fits = held.held();
        self.bits.clear();
        held.append_to(start + 8, PAYLOAD_BITS, &mut self.bits);
    }

    /// The bits.
    pub(crate) fn bits(&self) -> &Packed
        ensures { result.now.bits ≡ self.now }
    {
        &self.bits
    }
}
