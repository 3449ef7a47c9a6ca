//! Claims of the demultiplexer.

ghost use Rattle.std.specs.Prelude.{◌≡◌, ◌<◌, ◌≤◌, ◌*◌, ◌-◌, ◌^◌, min, Bool, false, List, [], ◌∷◌, ◌++◌, length, take, drop, Some, IfOk, OnOk};
ghost use Rattle.pdh_shape.specs.declared.place.Path.{Path};
ghost use Rattle.pdh_shape.specs.Tributary.{stripped};
ghost use Rattle.pdh_line.specs.Tracking.{frames_delivered};
ghost use Rattle.pdh_align.specs.Aligning.{frame_back};
ghost use Rattle.pdh_events.specs.Acts.{bit_acts, acts_events};
ghost use Rattle.pdh_events.specs.laws.QuietLaws.{IsQuiet};
ghost use Rattle.pdh_rx.specs.Meaning.{Meaning, HoldsAll, Gains};
ghost use Rattle.pdh_rx.specs.Node.{node_meaning, child_notes, received_lines, got_by, frames_counted, counts_of, counted_by};

use pdh_align::{Aligner, Step};
use pdh_edge::{Drain, Failed};
use pdh_packed::Packed;
use pdh_rx::{NodeCounts, Rx, RxNode, Strip, Tail, gap_after, take_watched};
use pdh_shape::Shape;
use pdh_watch::Watch;
use std::alloc::AllocError;

/// A loss begins a gap anew: none of its positions is passed over.
pub fn gap_goes_on_after_a_loss<S: Shape>(gap: u32) -> u32
    requires { gap < S.LEN }
    ensures { result ≡ 0 }
{
    gap_after::<S>(Step::Lost, gap)
}

/// A gap as long as a frame has a place for each bit that a frame carries of each tributary at least.
pub fn gap_gives_one_one_too_few<S: Shape>(strip: &mut Strip<S>) -> usize
    ensures { result ≡ S.LOW * S.TRIBS }
{
    strip.load_ones();
    strip.places()
}

/// The bits that are read of a ready frame are those of the tributary.
pub fn bits_of_another_tributary<S: Shape>(
    strip: &mut Strip<S>,
    aligner: &mut Aligner<S>,
    back: u8,
    trib: u8,
)
    requires ready { back < length aligner.old.ready }
    requires known { trib < S.TRIBS }
    ensures { strip.new.bits ≡ stripped S.shape trib (frame_back aligner.old.ready back) }
{
    strip.load(aligner, back);
    strip.read(trib);
}

/// A node tells the delivered frames of its whole line, in a gap too.
#[tactic(auto, unfolding(pdh_rx::specs::Node::frames_counted))]
pub fn no_frames_told_in_a_gap<S: Shape, C: Rx>(node: &RxNode<S, C>) -> u64
    ensures { (line : List Bool) → ⟦<RxNode<S, C> as Rx>⟧.stands node.now line → result ≡ min (frames_delivered S.shape line) (2 ^ 64 - 1) }
{
    node.frames()
}

/// A node appends what it counted itself, and then what each of its children did, in the order of tributaries.
pub fn nodes_below_not_counted<S: Shape, C: Rx>(
    node: &RxNode<S, C>,
    counts: &mut Vec<NodeCounts>,
) -> Result<(), AllocError>
    ensures { OnOk result ((path : Path) (ms : List Meaning) (line : List Bool) → ⟦<RxNode<S, C> as Rx>⟧.meaning node.now ≡ node_meaning S.shape path ms
        → ⟦<RxNode<S, C> as Rx>⟧.stands node.now line
        → counts.new.items ≡ counts.old.items ++ counts_of S.shape path line ∷ counted_by ms (received_lines S.shape line)) }
{
    node.count_nodes(counts)?;
    Ok(())
}

/// After a bit a node tells what it and those below it count of its line with that bit: a frame that ended at it is judged.
pub fn frames_not_judged<S: Shape, C: Rx, D: Drain, W: Watch>(
    node: &mut RxNode<S, C>,
    bit: bool,
    drain: &mut D,
    watch: &mut W,
    counts: &mut Vec<NodeCounts>,
) -> Result<Result<(), AllocError>, Failed>
    requires stands { (line : List Bool) × ⟦<RxNode<S, C> as Rx>⟧.stands node.old line }
    requires lists { HoldsAll (⟦<RxNode<S, C> as Rx>⟧.meaning node.old).leaves (D.outputs drain.old) }
    ensures { IfOk result (λ counted. OnOk counted ((path : Path) (ms : List Meaning) (line : List Bool) → ⟦<RxNode<S, C> as Rx>⟧.meaning node.old ≡ node_meaning S.shape path ms
        → ⟦<RxNode<S, C> as Rx>⟧.stands node.old line
        → counts.new.items ≡ counts.old.items ++ counts_of S.shape path (line ++ bit ∷ []) ∷ counted_by ms (received_lines S.shape (line ++ bit ∷ [])))) }
{
    node.push(bit, drain, watch)?;
    Ok(node.count_nodes(counts))
}

/// A bit shows AIS, then the alignment, then frame by frame the frame's own events and those below it, in the order of slots.
pub fn alignment_told_after_the_frames<S: Shape, C: Rx, D: Drain, W: Watch>(
    node: &mut RxNode<S, C>,
    bit: bool,
    drain: &mut D,
    watch: &mut W,
) -> Result<(), Failed>
    requires stands { (line : List Bool) × ⟦<RxNode<S, C> as Rx>⟧.stands node.old line }
    requires lists { HoldsAll (⟦<RxNode<S, C> as Rx>⟧.meaning node.old).leaves (D.outputs drain.old) }
    ensures { OnOk result ((path : Path) (ms : List Meaning) (line : List Bool) → ⟦<RxNode<S, C> as Rx>⟧.meaning node.old ≡ node_meaning S.shape path ms
        → ⟦<RxNode<S, C> as Rx>⟧.stands node.old line
        → W.saw watch.old (acts_events (child_notes ms) (received_lines S.shape line) (bit_acts S.shape path line bit)) watch.new) }
{
    node.push(bit, drain, watch)?;
    Ok(())
}

/// By a bit each leaf gains what its own tributary's received line gains.
pub fn due_bit_given_twice<S: Shape, C: Rx, D: Drain, W: Watch>(
    node: &mut RxNode<S, C>,
    bit: bool,
    drain: &mut D,
    watch: &mut W,
) -> Result<(), Failed>
    requires stands { (line : List Bool) × ⟦<RxNode<S, C> as Rx>⟧.stands node.old line }
    requires lists { HoldsAll (⟦<RxNode<S, C> as Rx>⟧.meaning node.old).leaves (D.outputs drain.old) }
    ensures { OnOk result ((path : Path) (ms : List Meaning) (line : List Bool) → ⟦<RxNode<S, C> as Rx>⟧.meaning node.old ≡ node_meaning S.shape path ms
        → ⟦<RxNode<S, C> as Rx>⟧.stands node.old line
        → Gains (got_by ms (received_lines S.shape line)) (got_by ms (received_lines S.shape (line ++ bit ∷ []))) (D.outputs drain.old) (D.outputs drain.new)) }
{
    node.push(bit, drain, watch)?;
    Ok(())
}

/// A leaf whose list is told isn't spared its bits.
pub fn leaf_spared_though_its_list_is_told<D: Drain>(leaf: u32, drain: &D) -> bool
    requires { (D.outputs drain.now).told leaf ≡ Some [] }
    ensures { result ≡ false }
{
    Tail::new(leaf).is_deaf(drain)
}

/// A node isn't spared a bit that brings an event.
pub fn node_spared_though_an_event_comes<S: Shape, C: Rx, D: Drain>(
    node: &RxNode<S, C>,
    drain: &D,
) -> bool
    requires { (line : List Bool) × (bit : Bool) × ⟦<RxNode<S, C> as Rx>⟧.stands node.now line × ((⟦<RxNode<S, C> as Rx>⟧.meaning node.now).notes line bit ≡ [] → ⊥) }
    ensures { result ≡ false }
{
    node.is_deaf(drain)
}

/// Bits that are glided over bring no event, of the node or below it.
pub fn glides_over_an_event<S: Shape, C: Rx, D: Drain>(
    node: &mut RxNode<S, C>,
    bits: &Packed,
    from: usize,
    drain: &mut D,
) -> Result<usize, Failed>
    requires begun { from ≤ length bits.now.bits }
    requires stands { (line : List Bool) × ⟦<RxNode<S, C> as Rx>⟧.stands node.old line }
    requires lists { HoldsAll (⟦<RxNode<S, C> as Rx>⟧.meaning node.old).leaves (D.outputs drain.old) }
    ensures { IfOk result (λ count. (path : Path) (ms : List Meaning) (line : List Bool) → ⟦<RxNode<S, C> as Rx>⟧.meaning node.old ≡ node_meaning S.shape path ms
        → ⟦<RxNode<S, C> as Rx>⟧.stands node.old line
        → IsQuiet (node_meaning S.shape path ms).notes line (take count (drop from bits.now.bits))) }
{
    let count = node.glide(bits, from, drain)?;
    Ok(count)
}

/// By bits that are glided over each leaf gains what its own tributary's received line gains, the ones of a gap too.
pub fn glides_over_the_ones_of_a_gap<S: Shape, C: Rx, D: Drain>(
    node: &mut RxNode<S, C>,
    bits: &Packed,
    from: usize,
    drain: &mut D,
) -> Result<usize, Failed>
    requires begun { from ≤ length bits.now.bits }
    requires stands { (line : List Bool) × ⟦<RxNode<S, C> as Rx>⟧.stands node.old line }
    requires lists { HoldsAll (⟦<RxNode<S, C> as Rx>⟧.meaning node.old).leaves (D.outputs drain.old) }
    ensures { IfOk result (λ count. (path : Path) (ms : List Meaning) (line : List Bool) → ⟦<RxNode<S, C> as Rx>⟧.meaning node.old ≡ node_meaning S.shape path ms
        → ⟦<RxNode<S, C> as Rx>⟧.stands node.old line
        → Gains (got_by ms (received_lines S.shape line)) (got_by ms (received_lines S.shape (line ++ take count (drop from bits.now.bits)))) (D.outputs drain.old) (D.outputs drain.new)) }
{
    let count = node.glide(bits, from, drain)?;
    Ok(count)
}

/// A node that was given a list tells the frames that are delivered by all of its bits.
pub fn last_bit_of_a_list_left_out<S: Shape, C: Rx, D: Drain, W: Watch>(
    node: &mut RxNode<S, C>,
    bits: &Packed,
    drain: &mut D,
    watch: &mut W,
) -> Result<u64, Failed>
    requires stands { (line : List Bool) × ⟦<RxNode<S, C> as Rx>⟧.stands node.old line }
    requires lists { HoldsAll (⟦<RxNode<S, C> as Rx>⟧.meaning node.old).leaves (D.outputs drain.old) }
    ensures { IfOk result (λ frames. (line : List Bool) → ⟦<RxNode<S, C> as Rx>⟧.stands node.old line → frames ≡ frames_counted S.shape (line ++ bits.now.bits)) }
{
    take_watched(node, bits, drain, watch)?;
    Ok(node.frames())
}
