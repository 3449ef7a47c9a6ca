//! A sink in memory, whose calls fail as planned.

ghost use Rattle.std.specs.Prelude.{◌≡◌, IfOk, OnOk, OnErr};
ghost use Rattle.pdh_edge.specs.Files.{Sends, FailsToSend};
ghost use Rattle.pdh_edge.specs.MemOutput.{mem_sink_state, sink_state, new_sink, with_planned, WritesInMemory};

use crate::buffer::Buffer;
use crate::plan::Plan;
use crate::{Failed, Sink};
use std::alloc::{AllocError, Global};

/// An output in memory, with room for a number of bytes, which tells what it took. `write` takes no
/// memory: it fails exactly where that was planned or the room is too small, and then takes nothing.
/// After an `AllocError` of the other calls nothing has changed.
#[derive(Drop)]
pub struct MemSink {
    buffer: Buffer,
    writes: Plan,
    faults: u64,
}

impl MemSink {
    /// An output that took nothing yet, with room for that many bytes in all. No call is to fail.
    pub fn open(alloc: Global, room: u64) -> Result<MemSink, AllocError>
        ensures { IfOk result (λ sink. mem_sink_state sink ≡ new_sink room) }
    {
        Ok(MemSink {
            buffer: Buffer::holding(alloc, room, &[])?,
            writes: Plan::new(alloc),
            faults: 0,
        })
    }

    /// Lets the `write` with that number, from 0, fail.
    pub fn fail(&mut self, number: u64) -> Result<(), AllocError>
        ensures ok { OnOk result (mem_sink_state self.new ≡ with_planned number
            (mem_sink_state self.old)) }
        ensures err { OnErr result (mem_sink_state self.new ≡ mem_sink_state self.old) }
    {
        self.writes.fail(number)
    }

    /// The bytes that it took.
    pub fn written(&self) -> &[u8]
        ensures { result.now ≡ (mem_sink_state self.now).written }
    {
        self.buffer.bytes()
    }
}

impl Sink for MemSink {
    ghost state = { sink_state };

    fn faults(&self) -> u64 {
        self.faults
    }

    fn write(&mut self, bytes: &[u8]) -> Result<(), Failed>
        ensures ok { OnOk result (Sends bytes.now (sink_state self.old) (sink_state self.new)) }
        ensures err { OnErr result (FailsToSend bytes.now
            (sink_state self.old) (sink_state self.new)) }
        ensures memory { WritesInMemory bytes.now
            (mem_sink_state self.old) (mem_sink_state self.new) result }
    {
        if self.writes.count() || !self.buffer.fits(bytes.len()) {
            self.faults = self.faults.saturating_add(1);
            return Err(Failed);
        }
        self.buffer.append(bytes);
        Ok(())
    }
}
