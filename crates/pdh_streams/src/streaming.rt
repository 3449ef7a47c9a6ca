//! All bits of one file given to a machine, which puts those of another.

ghost use Rattle.std.specs.Prelude.{◌≡◌, ◌<◌, ◌≤◌, [], IsTrue, OnOk, OnErr};
ghost use Rattle.pdh_streams.specs.Streaming.{GivesOn, Streams, StreamsPart, IsLeft, streamed_reads, streamed_writes};

use crate::machine::Machine;
use pdh_edge::{Failed, FeedStop, Port};
use pdh_packed::Packed;

/// The most bits of a file that are given to a machine at once.
pub(crate) const MOST_BITS: usize = 32768;

/// Why not all bits of a file went through a machine.
#[derive(Clone, Copy, Debug, PartialEq, Eq)]
pub(crate) enum StreamStop {
    /// A call that takes bits of the port failed.
    Unread,
    /// A call that starts or puts bits to the port failed.
    Unwritten,
}

impl From<FeedStop> for StreamStop {
    ghost use Rattle.std.specs.Prelude.{◌≡◌};
    ghost use Rattle.pdh_streams.specs.declared.streaming.StreamStop.TheVariants.{Unread};

    ghost from_gives = { λ _ stop. stop ≡ Unread };

    fn from(_: FeedStop) -> StreamStop {
        StreamStop::Unread
    }
}

impl From<Failed> for StreamStop {
    ghost use Rattle.std.specs.Prelude.{◌≡◌};
    ghost use Rattle.pdh_streams.specs.declared.streaming.StreamStop.TheVariants.{Unwritten};

    ghost from_gives = { λ _ stop. stop ≡ Unwritten };

    fn from(_: Failed) -> StreamStop {
        StreamStop::Unwritten
    }
}

// Gives a machine that has taken no bit so many bits of the port's list 0, which has them, and it puts what they give to list 0;
// `buffer` holds those that are given at once.
fn give<M: Machine, P: Port>(
    machine: &mut M,
    bits: u64,
    buffer: &mut Packed,
    port: &mut P,
) -> Result<(), StreamStop>
    requires room { 0 < buffer.old.capacity }
    requires stands { M.stands machine.old [] }
    requires on { GivesOn (M.far machine.old) }
    requires line { IsTrue ((P.inputs port.old).holds 0) }
    requires out { IsTrue ((P.outputs port.old).holds 0) }
    requires whole { bits ≤ (P.inputs port.old).left 0 }
    ensures codec { M.codec machine.new ≡ M.codec machine.old }
    ensures kept { P.kept port.old port.new }
    ensures reads { P.feed_faults port.new ≡ streamed_reads result (P.feed_faults port.old) }
    ensures writes { P.drain_faults port.new ≡ streamed_writes result (P.drain_faults port.old) }
    ensures ok { OnOk result (Streams (M.far machine.old) (M.stands machine.new) bits
        (P.inputs port.old) (P.inputs port.new) (P.outputs port.old) (P.outputs port.new)) }
    ensures part { OnErr result (StreamsPart (M.far machine.old)
        (P.inputs port.old) (P.inputs port.new) (P.outputs port.old) (P.outputs port.new)) }
{
    let mut given = 0;
    while given < bits {
        buffer.clear();
        let most = (bits - given).min(buffer.capacity() as u64) as usize;
        let count = port.bits(0, most, buffer)?;
        machine.receive(buffer, port)?;
        given += count as u64;
    }
    Ok(())
}

/// Starts a fresh port, and gives a machine that has taken no bit so many bits of its list 0, which has them; it puts what they
/// give to list 0. `buffer` holds those that are given at once. No memory is taken.
pub(crate) fn stream<M: Machine, P: Port>(
    machine: &mut M,
    bits: u64,
    buffer: &mut Packed,
    port: &mut P,
) -> Result<(), StreamStop>
    requires room { 0 < buffer.old.capacity }
    requires stands { M.stands machine.old [] }
    requires on { GivesOn (M.far machine.old) }
    requires fresh { P.fresh port.old }
    requires line { IsTrue ((P.inputs port.old).holds 0) }
    requires out { IsTrue ((P.outputs port.old).holds 0) }
    requires whole { bits ≤ (P.inputs port.old).left 0 }
    ensures codec { M.codec machine.new ≡ M.codec machine.old }
    ensures kept { P.kept port.old port.new }
    ensures reads { P.feed_faults port.new ≡ streamed_reads result (P.feed_faults port.old) }
    ensures writes { P.drain_faults port.new ≡ streamed_writes result (P.drain_faults port.old) }
    ensures left { IsLeft (P.ready port.new) (P.refused port.new) result }
    ensures ok { OnOk result (Streams (M.far machine.old) (M.stands machine.new) bits
        (P.inputs port.old) (P.inputs port.new) (P.outputs port.old) (P.outputs port.new)) }
    ensures part { OnErr result (StreamsPart (M.far machine.old)
        (P.inputs port.old) (P.inputs port.new) (P.outputs port.old) (P.outputs port.new)) }
{
    port.start()?;
    give(machine, bits, buffer, port)
}
