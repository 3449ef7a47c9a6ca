//! What a step of the aligner brings: events to the watch, and to the children their bits of the frames that are
//! delivered, or the ones of a gap.

ghost use Rattle.std.specs.Prelude.{◌≡◌, ◌<◌, ◌++◌, ◌∷◌, List, [], length, map, OnOk};
ghost use Rattle.pdh_line.specs.Tracking.{Piece};
ghost use Rattle.pdh_line.specs.Tracking.Piece.{Delivered};
ghost use Rattle.pdh_align.specs.Aligning.{frame_back, frames_gained};
ghost use Rattle.pdh_events.specs.Keeping.{Remembers};
ghost use Rattle.pdh_events.specs.Acts.{frame_acts, frames_acts};
ghost use Rattle.pdh_rx.specs.Node.{AreReady, Acted, step_acts, step_pieces};

use crate::Rx;
use crate::children::Children;
use crate::merging::{Split, give_loaded};
use crate::rounds::give_ones;
use pdh_align::{Aligner, Step};
use pdh_edge::{Drain, Failed};
use pdh_events::{FrameTeller, note_kind};
use pdh_shape::{Path, Shape};
use pdh_watch::{Kind, Watch};

/// A bit of the line of the node at a path.
#[derive(Clone, Copy)]
pub struct LineBit {
    /// The node's path.
    pub path: Path,
    /// The bit's number, counted from 0.
    pub number: u64,
}

// Notes a ready frame's own events, and gives the children their bits of it, or spares them where all are deaf.
fn deliver<S: Shape, C: Rx, D: Drain, W: Watch>(
    children: &mut Children<S, C>,
    split: &mut Split<S>,
    teller: &mut FrameTeller<S>,
    aligner: &mut Aligner<S>,
    back: u8,
    at: LineBit,
    drain: &mut D,
    watch: &mut W,
) -> Result<(), Failed>
    requires ready { back < length aligner.old.ready }
    requires children { AreReady C.stands C.meaning children.old (D.outputs drain.old) }
    ensures acted { (pieces : List Piece) → Remembers S.shape teller.old pieces → Acted C.Rx D.Drain W.Watch
        (frame_acts S.shape at.path at.number pieces (frame_back aligner.old.ready back))
        children.old children.new drain.old drain.new watch.old watch.new result }
    ensures remembers { (pieces : List Piece) → Remembers S.shape teller.old pieces
        → Remembers S.shape teller.new (pieces ++ Delivered (frame_back aligner.old.ready back) ∷ []) }
    ensures aligner { aligner.new ≡ record aligner.old { ready = aligner.new.ready } }
    ensures ready { 1 < length aligner.old.ready → aligner.new ≡ aligner.old }
{
    split.strip.load(aligner, back);
    let odd = if teller.tells_parity() {
        split.strip.is_odd()
    } else {
        false
    };
    teller.note(split.strip.frame(), odd, at.path, at.number, watch);
    if children.are_deaf(drain) {
        return Ok(());
    }
    let room = children.have_room(drain, S::LOW as usize + 1);
    give_loaded::<S, C, D, W>(children, split, room, drain, watch)
}

// Delivers all ready frames, of which there are so many, oldest first.
fn deliver_all<S: Shape, C: Rx, D: Drain, W: Watch>(
    children: &mut Children<S, C>,
    split: &mut Split<S>,
    teller: &mut FrameTeller<S>,
    aligner: &mut Aligner<S>,
    frames: u8,
    at: LineBit,
    drain: &mut D,
    watch: &mut W,
) -> Result<(), Failed>
    requires ready { length aligner.old.ready ≡ frames }
    requires told { (pieces : List Piece) × Remembers S.shape teller.old pieces }
    requires children { AreReady C.stands C.meaning children.old (D.outputs drain.old) }
    ensures acted { (pieces : List Piece) → Remembers S.shape teller.old pieces → Acted C.Rx D.Drain W.Watch
        (frames_acts S.shape at.path at.number pieces aligner.old.ready)
        children.old children.new drain.old drain.new watch.old watch.new result }
    ensures remembers { OnOk result ((pieces : List Piece) → Remembers S.shape teller.old pieces
        → Remembers S.shape teller.new (pieces ++ map Delivered aligner.old.ready)) }
    ensures aligner { aligner.new ≡ record aligner.old { ready = aligner.new.ready } }
{
    for done in 0..frames {
        let back = frames - 1 - done;
        deliver::<S, C, D, W>(children, split, teller, aligner, back, at, drain, watch)?;
    }
    Ok(())
}

// Notes and gives what a step of the aligner at a bit brings, where `gap` positions of a gap are passed over now since the
// last whole frame's length.
pub(crate) fn act<S: Shape, C: Rx, D: Drain, W: Watch>(
    children: &mut Children<S, C>,
    split: &mut Split<S>,
    teller: &mut FrameTeller<S>,
    aligner: &mut Aligner<S>,
    step: Step,
    gap: u32,
    at: LineBit,
    drain: &mut D,
    watch: &mut W,
) -> Result<(), Failed>
    requires ready { length aligner.old.ready ≡ frames_gained step }
    requires told { (pieces : List Piece) × Remembers S.shape teller.old pieces }
    requires children { AreReady C.stands C.meaning children.old (D.outputs drain.old) }
    ensures acted { (pieces : List Piece) → Remembers S.shape teller.old pieces → Acted C.Rx D.Drain W.Watch
        (step_acts S.shape at.path at.number pieces step aligner.old.ready gap)
        children.old children.new drain.old drain.new watch.old watch.new result }
    ensures remembers { OnOk result ((pieces : List Piece) → Remembers S.shape teller.old pieces
        → Remembers S.shape teller.new (step_pieces step aligner.old.ready pieces)) }
    ensures aligner { aligner.new ≡ record aligner.old { ready = aligner.new.ready } }
{
    match step {
        Step::Rejected => {
            if gap > 0 {
                return Ok(());
            }
            give_ones::<S, C, D, W>(children, split, drain, watch)
        }
        Step::Aligned => {
            note_kind(Kind::ALIGNED, at.path, at.number, watch);
            deliver_all::<S, C, D, W>(children, split, teller, aligner, 3, at, drain, watch)
        }
        Step::Frame => {
            deliver_all::<S, C, D, W>(children, split, teller, aligner, 1, at, drain, watch)
        }
        Step::Lost => {
            note_kind(Kind::LOST, at.path, at.number, watch);
            teller.lose();
            Ok(())
        }
        Step::Nothing => Ok(()),
    }
}
