//! A line taken apart through far stores: what comes out of them is put as it comes, and then the schedule that would make the
//! line again, of marks that were kept.

ghost use Rattle.std.specs.Prelude.{◌≡◌, ◌<◌, ◌≤◌, ◌^◌, suc, [], ◌∷◌, Err, IfOk, IfErr, OnOk};
ghost use Rattle.pdh_levels.specs.Levels.{most_tributaries};
ghost use Rattle.pdh_chain.specs.Faults.{demux_reads, demux_writes};
ghost use Rattle.pdh_chain.specs.Calls.{IsPortFor, IsLeft};
ghost use Rattle.pdh_smoothing.specs.Again.{lists_in};
ghost use Rattle.pdh_smoothing.specs.Smoothing.{lists_put, SmoothsBy, SmoothStopsBy};
ghost use Rattle.pdh_smoothing.specs.Steps.{IsOpened, HasMarkLists, TakesLine};

use crate::rows::{ROW_BITS, put_rows};
use crate::split_port::SplitPort;
use pdh_chain::{DemuxStop, receive};
use pdh_desync::SmoothNode;
use pdh_edge::{MemPort, Port};
use pdh_packed::Packed;
use pdh_rx::Rx;
use pdh_shape::{Shape, TOP};
use pdh_watch::Quiet;
use std::alloc::{AllocError, Global};

// How many bits of a line are taken at once, at most.
const BUFFER: usize = 32768;

/// A port over which a line was taken apart, and what that came to.
#[derive(Drop)]
pub struct Smoothed<P> {
    /// The port.
    pub port: P,
    /// How many frames were delivered, or why the line wasn't taken to its end.
    pub result: Result<u64, DemuxStop>,
}

// What a line is taken apart with.
#[derive(Drop)]
struct Tools<S: Shape> {
    // it puts what comes out of the far stores to the lists from 0 on, one for each tributary, and their marks to those behind the
    // schedule's
    node: SmoothNode<S>,
    // lists for the marks
    marks: MemPort,
    // room for the bits of the line that are taken at once,
    buffer: Packed,
    // and for a row of the schedule
    row: Packed,
}

// Lists for the marks of a line of so many bits: one for each tributary, with room for one more than the line has frames' lengths.
fn mark_lists<S: Shape>(alloc: Global, bits: u64) -> Result<MemPort, AllocError>
    requires few { bits < 2 ^ 63 }
    ensures { IfOk result (HasMarkLists S.shape bits) }
{
    let mut port = MemPort::open(alloc, Vec::new(alloc), u32::from(S::TRIBS))?;
    let most = bits as usize / S::LEN as usize + 1;
    for trib in 0..S::TRIBS {
        port.room(u32::from(trib), most)?;
    }
    Ok(port)
}

impl<S: Shape> Tools<S> {
    // Those for a line of so many bits; or it finds no memory.
    fn open(alloc: Global, bits: u64) -> Result<Tools<S>, AllocError>
        requires few { bits < 2 ^ 63 }
        ensures node { IfOk result (λ tools. IsOpened S.shape (⟦<SmoothNode<S> as Rx>⟧.meaning tools.node) (⟦<SmoothNode<S> as Rx>⟧.stands tools.node)) }
        ensures marks { IfOk result (λ tools. HasMarkLists S.shape bits tools.marks) }
        ensures buffer { IfOk result (λ tools. 0 < tools.buffer.capacity) }
        ensures row { IfOk result (λ tools. ROW_BITS ≤ tools.row.capacity) }
    {
        let behind = u32::from(S::TRIBS) + 1;
        Ok(Tools {
            node: SmoothNode::open(alloc, TOP, 0, behind)?,
            marks: mark_lists::<S>(alloc, bits)?,
            buffer: Packed::open(alloc, BUFFER)?,
            row: Packed::open(alloc, ROW_BITS)?,
        })
    }
}

// Starts a port that keeps the marks, and takes so many bits of its line.
fn take_line<S: Shape, P: Port>(
    node: &mut SmoothNode<S>,
    bits: u64,
    buffer: &mut Packed,
    split: &mut SplitPort<P, MemPort>,
) -> Result<(), DemuxStop>
    requires node { IsOpened S.shape (⟦<SmoothNode<S> as Rx>⟧.meaning node.old) (⟦<SmoothNode<S> as Rx>⟧.stands node.old) }
    requires buffer { 0 < buffer.old.capacity }
    requires marks { HasMarkLists S.shape bits split.old.kept }
    requires from { split.old.from ≡ suc S.shape.tribs }
    requires port { IsPortFor (P.fresh split.old.port) (suc S.shape.tribs) (P.outputs split.old.port).holds (P.inputs split.old.port).holds }
    ensures kept { P.kept split.old.port split.new.port }
    ensures reads { P.feed_faults split.new.port ≡ demux_reads result (P.feed_faults split.old.port) }
    ensures writes { P.drain_faults split.old.port < 2 ^ 64 → P.drain_faults split.new.port < 2 ^ 64
        → P.drain_faults split.new.port ≡ demux_writes result (P.drain_faults split.old.port) }
    ensures ready { OnOk result (P.ready split.new.port) }
    ensures ok { OnOk result (TakesLine S.shape bits (⟦<SmoothNode<S> as Rx>⟧.stands node.new) (lists_in split.new.kept)
        (P.inputs split.old.port) (P.inputs split.new.port) (P.outputs split.old.port) (P.outputs split.new.port)) }
    ensures left { IfErr result (λ stop. IsLeft (P.fresh split.new.port) (P.ready split.new.port) (P.refused split.new.port)
        (P.unread split.new.port 0) (Err stop)) }
    ensures err { IfErr result (SmoothStopsBy P.Feed P.Drain (S.shape ∷ []) bits split.old.port split.new.port) }
{
    split.port.start()?;
    receive(node, bits, buffer, split, &mut Quiet)
}

// Takes so many bits of the line apart over a port that keeps the marks, and then puts the schedule; answers how many frames were
// delivered.
fn smooth_over<S: Shape, P: Port>(
    node: &mut SmoothNode<S>,
    bits: u64,
    buffer: &mut Packed,
    row: &mut Packed,
    split: &mut SplitPort<P, MemPort>,
) -> Result<u64, DemuxStop>
    requires few { bits < 2 ^ 63 }
    requires some { 0 < S.TRIBS }
    requires fits { S.TRIBS ≤ most_tributaries }
    requires node { IsOpened S.shape (⟦<SmoothNode<S> as Rx>⟧.meaning node.old) (⟦<SmoothNode<S> as Rx>⟧.stands node.old) }
    requires buffer { 0 < buffer.old.capacity }
    requires row { ROW_BITS ≤ row.old.capacity }
    requires marks { HasMarkLists S.shape bits split.old.kept }
    requires from { split.old.from ≡ suc S.shape.tribs }
    requires port { IsPortFor (P.fresh split.old.port) (suc S.shape.tribs) (P.outputs split.old.port).holds (P.inputs split.old.port).holds }
    ensures kept { P.kept split.old.port split.new.port }
    ensures reads { P.feed_faults split.new.port ≡ demux_reads result (P.feed_faults split.old.port) }
    ensures writes { P.drain_faults split.old.port < 2 ^ 64 → P.drain_faults split.new.port < 2 ^ 64
        → P.drain_faults split.new.port ≡ demux_writes result (P.drain_faults split.old.port) }
    ensures left { IsLeft (P.fresh split.new.port) (P.ready split.new.port) (P.refused split.new.port)
        (P.unread split.new.port 0) result }
    ensures ok { IfOk result (SmoothsBy P.Feed P.Drain (S.shape ∷ []) bits split.old.port split.new.port) }
    ensures err { IfErr result (SmoothStopsBy P.Feed P.Drain (S.shape ∷ []) bits split.old.port split.new.port) }
{
    take_line(node, bits, buffer, split)?;
    put_rows::<S, P>(&split.kept, u32::from(S::TRIBS), row, &mut split.port)?;
    Ok(node.frames())
}

/// Takes so many bits of a port's list 0, a line of one multiplexer with this frame, puts to a list for each tributary what comes
/// out of its far store by them, and then to the list behind those the schedule that would make the line again; answers how many
/// frames were delivered. It takes its memory before it starts the port.
pub fn smooth_with<S: Shape, P: Port>(alloc: Global, bits: u64, port: P) -> Smoothed<P>
    requires few { bits < 2 ^ 63 }
    requires some { 0 < S.TRIBS }
    requires fits { S.TRIBS ≤ most_tributaries }
    requires port { IsPortFor (P.fresh port) (lists_put (S.shape ∷ [])) (P.outputs port).holds (P.inputs port).holds }
    ensures kept { P.kept port result.port }
    ensures reads { P.feed_faults result.port ≡ demux_reads result.result (P.feed_faults port) }
    ensures writes { P.drain_faults result.port ≡ demux_writes result.result (P.drain_faults port) }
    ensures left { IsLeft (P.fresh result.port) (P.ready result.port) (P.refused result.port) (P.unread result.port 0) result.result }
    ensures ok { IfOk result.result (SmoothsBy P.Feed P.Drain (S.shape ∷ []) bits port result.port) }
    ensures err { IfErr result.result (SmoothStopsBy P.Feed P.Drain (S.shape ∷ []) bits port result.port) }
{
    match Tools::<S>::open(alloc, bits) {
        Ok(tools) => {
            let Tools {
                mut node,
                marks,
                mut buffer,
                mut row,
            } = tools;
            let mut split = SplitPort::new(port, marks, u32::from(S::TRIBS) + 1);
            let result = smooth_over(&mut node, bits, &mut buffer, &mut row, &mut split);
            Smoothed {
                port: split.into_port(),
                result,
            }
        }
        Err(AllocError) => Smoothed {
            port,
            result: Err(DemuxStop::Memory),
        },
    }
}
