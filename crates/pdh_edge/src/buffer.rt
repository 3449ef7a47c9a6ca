//! Bytes that grow within room that was taken before, for a shelf or a sink in memory.

ghost use Rattle.std.specs.Prelude.{◌≡◌, ◌↔◌, ◌+◌, ◌≤◌, [], ◌++◌, length, if◌then◌else◌, IfOk, IsTrue};

use std::alloc::{AllocError, Global};
use std::marker::Model;

// Bytes, with memory for a number of them.
#[derive(Drop)]
pub(crate) struct Buffer {
    bytes: Vec<u8>,
    room: u64,
}

impl Model for Buffer {
    ghost use Rattle.std.specs.Prelude.{◌≤◌, vec_capacity};
    ghost use Rattle.pdh_edge.specs.Buffer.{BufferState};

    ghost Value = { BufferState };

    ghost view = { λ b. record { bytes = b.bytes.items; room = b.room } };

    ghost invariant = { λ b. b.room ≤ vec_capacity b.bytes };
}

impl Buffer {
    pub(crate) fn holding(alloc: Global, room: u64, bytes: &[u8]) -> Result<Buffer, AllocError>
        ensures { IfOk result (λ buffer. buffer ≡ record { bytes = bytes.now; room = room }) }
    {
        let Ok(count) = usize::try_from(room) else {
            return Err(AllocError);
        };
        let mut copy = Vec::with_capacity(alloc, count.max(bytes.len()))?;
        copy.extend_from_slice(bytes)?;
        Ok(Buffer { bytes: copy, room })
    }

    pub(crate) fn bytes(&self) -> &[u8]
        ensures { result.now ≡ self.now.bytes }
    {
        &self.bytes
    }

    pub(crate) fn room(&self) -> u64
        ensures { result ≡ self.now.room }
    {
        self.room
    }

    pub(crate) fn clear(&mut self)
        ensures { self.new ≡ record self.old { bytes = [] } }
    {
        self.bytes.clear();
    }

    // Whether there is room for so many more bytes.
    pub(crate) fn fits(&self, count: usize) -> bool
        ensures { IsTrue result ↔ (length self.now.bytes + count ≤ self.now.room) }
    {
        let count = count as u64;
        count <= self.room && self.bytes.len() as u64 <= self.room - count
    }

    // Adds the bytes, which takes no memory.
    pub(crate) fn append(&mut self, bytes: &[u8])
        requires { length self.old.bytes + length bytes.now ≤ self.old.room }
        ensures { self.new ≡ record self.old { bytes = self.old.bytes ++ bytes.now } }
    {
        let _ = self.bytes.extend_from_slice(bytes);
    }
}
