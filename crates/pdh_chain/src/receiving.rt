//! A line given to a receiver many bits at a time, and `demux` of a chain by the types of its nodes.

ghost use Rattle.std.specs.Prelude.{◌≡◌, ◌<◌, ◌≤◌, ◌^◌, [], IfOk, IfErr, IsErrOf, ◌∷◌, Err};
ghost use Rattle.pdh_nesting.specs.Chains.{width};
ghost use Rattle.pdh_chain.specs.declared.stop.DemuxStop.TheVariants.{Memory, ReadFailed};
ghost use Rattle.pdh_chain.specs.Faults.{demux_reads, demux_writes};
ghost use Rattle.pdh_chain.specs.Calls.{AreFew, IsPortFor, DemuxesBy, DemuxStopsBy, IsLeft, IsLinkedTo, ReceivesFirst};

use crate::opening::open_receiver;
use crate::stop::DemuxStop;
use crate::trees::ChainRx;
use pdh_edge::Port;
use pdh_packed::Packed;
use pdh_rx::{Rx, RxNode, take_watched};
use pdh_shape::Shape;
use pdh_watch::Watch;
use std::alloc::Global;

// How many bits of a line are taken at once, at most.
const BUFFER: usize = 32768;

// How many bits to take at once, where so many are left and there is room for so many.
fn part(left: u64, room: usize) -> usize
    requires left { 0 < left }
    requires room { 0 < room }
    ensures some { 0 < result }
    ensures left { result ≤ left }
    ensures room { result ≤ room }
{
    left.min(room as u64) as usize
}

/// Gives a receiver that has got no bit so many bits of the port's list 0, and shows the watch the events that they bring;
/// `buffer` holds those that are taken at once.
pub fn receive<R: Rx, P: Port, W: Watch>(
    receiver: &mut R,
    bits: u64,
    buffer: &mut Packed,
    port: &mut P,
    watch: &mut W,
) -> Result<(), DemuxStop>
    requires some { 0 < buffer.old.capacity }
    requires stands { R.stands receiver.old [] }
    requires port { IsLinkedTo (R.meaning receiver.old) (P.inputs port.old) (P.outputs port.old) }
    ensures received { ReceivesFirst P.Feed P.Drain P.kept (R.meaning receiver.old) (R.stands receiver.new)
        (λ events. W.saw watch.old events watch.new) bits bits port.old port.new result }
    ensures unread { IsErrOf result ReadFailed → P.unread port.new 0 }
    ensures same { R.meaning receiver.new ≡ R.meaning receiver.old }
{
    let mut received = 0;
    while received < bits {
        let most = part(bits - received, buffer.capacity());
        buffer.clear();
        let count = port.bits(0, most, buffer)?;
        take_watched(receiver, buffer, port, watch)?;
        received += count as u64;
    }
    Ok(())
}

/// Takes so many bits of the line of a chain whose top has this frame and whose top's tributaries are
/// such receivers, as `demux` does.
pub fn demux_with<S: Shape, C: ChainRx, P: Port, W: Watch>(
    alloc: Global,
    bits: u64,
    port: &mut P,
    watch: &mut W,
) -> Result<u64, DemuxStop>
    requires levels { AreFew (S.shape ∷ C.shapes) }
    requires few { bits < 2 ^ 63 }
    requires port { IsPortFor (P.fresh port.old) (width (S.shape ∷ C.shapes)) (P.outputs port.old).holds (P.inputs port.old).holds }
    ensures kept { P.kept port.old port.new }
    ensures reads { P.feed_faults port.new ≡ demux_reads result (P.feed_faults port.old) }
    ensures writes { P.drain_faults port.new ≡ demux_writes result (P.drain_faults port.old) }
    ensures left { IsLeft (P.fresh port.new) (P.ready port.new) (P.refused port.new) (P.unread port.new 0) result }
    ensures ok { IfOk result (DemuxesBy P.Feed P.Drain (S.shape ∷ C.shapes) (λ events. W.saw watch.old events watch.new) bits
        port.old port.new) }
    ensures err { IfErr result (DemuxStopsBy P.Feed P.Drain (S.shape ∷ C.shapes) (λ events. W.saw watch.old events watch.new) bits
        port.old port.new) }
    ensures unseen { result ≡ Err Memory → watch.new ≡ watch.old }
{
    let mut node: RxNode<S, C> = open_receiver(alloc)?;
    let mut buffer = Packed::open(alloc, BUFFER)?;
    port.start()?;
    receive(&mut node, bits, &mut buffer, port, watch)?;
    Ok(node.frames())
}
