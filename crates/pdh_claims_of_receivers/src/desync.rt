//! Claims of the node of far stores.

ghost use Rattle.std.specs.Prelude.{◌≡◌, ◌<◌, ◌≤◌, ◌+◌, ◌-◌, ℕ, Bool, List, [], ◌∷◌, ◌++◌, length, take, drop, replicate, IfOk, OnOk};
ghost use Rattle.pdh_shape.specs.declared.place.Path.{Path};
ghost use Rattle.pdh_shape.specs.OwnNumbers.{threshold};
ghost use Rattle.pdh_line.specs.Receiving.{received};
ghost use Rattle.pdh_events.specs.Acts.{bit_acts, acts_events};
ghost use Rattle.pdh_rx.specs.Meaning.{HoldsAll, Gains};
ghost use Rattle.pdh_rx.specs.Node.{child_notes, received_lines, frames_counted, counts_of, counted_by};
ghost use Rattle.pdh_desync.specs.FarStore.{read_in_all};
ghost use Rattle.pdh_desync.specs.Smooth.{mute_meaning, smooth_meaning};

use pdh_desync::SmoothNode;
use pdh_desync::laws::far_store_balance;
use pdh_edge::{Drain, Failed};
use pdh_packed::Packed;
use pdh_rx::{NodeCounts, Rx};
use pdh_shape::Shape;
use pdh_watch::Watch;
use std::alloc::AllocError;

/// A tributary's far store holds what its line brought and the ones with which it began, less what was read of them.
pub fn fill_of_the_first_tributary<S: Shape>(node: &SmoothNode<S>, trib: u8) -> u32
    requires { trib < S.TRIBS }
    ensures { (line : List Bool) → ⟦<SmoothNode<S> as Rx>⟧.stands node.now line
        → threshold + length (received S.shape trib line) ≡ result + read_in_all S.shape trib line }
{
    far_store_balance::<S>();
    node.fill(trib)
}

/// A bit shows a watch the events of a demultiplexer at the node's place.
pub fn events_are_dropped<S: Shape, D: Drain, W: Watch>(
    node: &mut SmoothNode<S>,
    bit: bool,
    drain: &mut D,
    watch: &mut W,
) -> Result<(), Failed>
    requires stands { (line : List Bool) × ⟦<SmoothNode<S> as Rx>⟧.stands node.old line }
    requires lists { HoldsAll (⟦<SmoothNode<S> as Rx>⟧.meaning node.old).leaves (D.outputs drain.old) }
    ensures { OnOk result ((path : Path) (first marks : ℕ) (line : List Bool) → ⟦<SmoothNode<S> as Rx>⟧.meaning node.old ≡ smooth_meaning S.shape path first marks
        → ⟦<SmoothNode<S> as Rx>⟧.stands node.old line
        → W.saw watch.old (acts_events (child_notes (replicate S.shape.tribs mute_meaning)) (received_lines S.shape line) (bit_acts S.shape path line bit)) watch.new) }
{
    node.push(bit, drain, watch)?;
    Ok(())
}

/// By a bit a tributary's leaves gain what its far store gives out, without the ones with which that began, and its marks.
pub fn first_reads_put_out<S: Shape, D: Drain, W: Watch>(
    node: &mut SmoothNode<S>,
    bit: bool,
    drain: &mut D,
    watch: &mut W,
) -> Result<(), Failed>
    requires stands { (line : List Bool) × ⟦<SmoothNode<S> as Rx>⟧.stands node.old line }
    requires lists { HoldsAll (⟦<SmoothNode<S> as Rx>⟧.meaning node.old).leaves (D.outputs drain.old) }
    ensures { OnOk result ((path : Path) (first marks : ℕ) (line : List Bool) → ⟦<SmoothNode<S> as Rx>⟧.meaning node.old ≡ smooth_meaning S.shape path first marks
        → ⟦<SmoothNode<S> as Rx>⟧.stands node.old line
        → Gains ((smooth_meaning S.shape path first marks).got line) ((smooth_meaning S.shape path first marks).got (line ++ bit ∷ [])) (D.outputs drain.old) (D.outputs drain.new)) }
{
    node.push(bit, drain, watch)?;
    Ok(())
}

/// A node of far stores is counted as the demultiplexer at its place is.
pub fn node_of_far_stores_not_counted<S: Shape>(
    node: &SmoothNode<S>,
    counts: &mut Vec<NodeCounts>,
) -> Result<(), AllocError>
    ensures { OnOk result ((path : Path) (first marks : ℕ) (line : List Bool) → ⟦<SmoothNode<S> as Rx>⟧.meaning node.now ≡ smooth_meaning S.shape path first marks
        → ⟦<SmoothNode<S> as Rx>⟧.stands node.now line
        → counts.new.items ≡ counts.old.items ++ counts_of S.shape path line ∷ counted_by (replicate S.shape.tribs mute_meaning) (received_lines S.shape line)) }
{
    node.count_nodes(counts)?;
    Ok(())
}

/// After bits that are glided over and one more, the frames are told that all of these deliver.
pub fn stores_take_none_of_many_bits<S: Shape, D: Drain, W: Watch>(
    node: &mut SmoothNode<S>,
    bits: &Packed,
    from: usize,
    bit: bool,
    drain: &mut D,
    watch: &mut W,
) -> Result<(usize, u64), Failed>
    requires begun { from ≤ length bits.now.bits }
    requires stands { (line : List Bool) × ⟦<SmoothNode<S> as Rx>⟧.stands node.old line }
    requires lists { HoldsAll (⟦<SmoothNode<S> as Rx>⟧.meaning node.old).leaves (D.outputs drain.old) }
    ensures { IfOk result (λ told. (line : List Bool) → ⟦<SmoothNode<S> as Rx>⟧.stands node.old line
        → told.1 ≡ frames_counted S.shape ((line ++ take told.0 (drop from bits.now.bits)) ++ bit ∷ [])) }
{
    let count = node.glide(bits, from, drain)?;
    node.push(bit, drain, watch)?;
    Ok((count, node.frames()))
}
