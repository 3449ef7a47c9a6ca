//! What is kept of a line while its frames are shown.

ghost use Rattle.std.specs.Prelude.{◌≡◌, ◌≤◌, ◌<◌, [], length, map, fold, IfOk};
ghost use Rattle.pdh_line.specs.Tracking.Piece.{Delivered};
ghost use Rattle.pdh_align.specs.Aligning.{frame_back, frames_gained};
ghost use Rattle.pdh_delivered.specs.Deliveries.{deliveries_behind, last_of, gained};

use crate::Visitor;
use pdh_align::{Aligner, Step};
use pdh_packed::Packed;
use pdh_shape::Shape;
use std::alloc::{AllocError, Global};
use std::marker::PhantomData;

/// The frame that was delivered last, and room for the next.
#[derive(Drop)]
pub struct Recent<S: Shape> {
    /// The frame that was delivered last; no bit where the next is the first of its alignment.
    pub last: Packed,
    frame: Packed,
    of: PhantomData<S>,
    ghost last_room: { S.LEN ≤ last.capacity },
    ghost frame_room: { S.LEN ≤ frame.capacity },
}

impl<S: Shape> Recent<S> {
    /// Where no frame was delivered; or it finds no memory.
    pub fn open(alloc: Global) -> Result<Recent<S>, AllocError>
        ensures { IfOk result (λ recent. recent.last.bits ≡ []) }
    {
        Ok(Recent {
            last: Packed::open(alloc, S::LEN as usize)?,
            frame: Packed::open(alloc, S::LEN as usize)?,
            of: PhantomData,
        })
    }

    // Shows the frame that stands `back` frames before the newest of the ready ones.
    fn show<V: Visitor<S>>(&mut self, aligner: &Aligner<S>, back: u8, visitor: &mut V)
        requires ready { back < length aligner.now.ready }
        ensures shown { visitor.new ≡ V.shown visitor.old (record { before = self.old.last.bits; frame = frame_back aligner.now.ready back }) }
        ensures last { self.new.last.bits ≡ frame_back aligner.now.ready back }
    {
        self.frame.clear();
        aligner.append_frame(back, &mut self.frame);
        visitor.visit(&self.last, &self.frame);
        self.last.copy_from(&self.frame);
    }

    // Shows all ready frames, of which there are so many, the oldest first.
    fn show_all<V: Visitor<S>>(&mut self, aligner: &Aligner<S>, frames: u8, visitor: &mut V)
        requires ready { length aligner.now.ready ≡ frames }
        ensures shown { visitor.new ≡ fold V.shown visitor.old (deliveries_behind self.old.last.bits (map Delivered aligner.now.ready)) }
        ensures last { self.new.last.bits ≡ last_of self.old.last.bits (map Delivered aligner.now.ready) }
    {
        for done in 0..frames {
            self.show(aligner, frames - 1 - done, visitor);
        }
    }

    /// Shows the frames that a step of the aligner brought.
    pub fn follow<V: Visitor<S>>(&mut self, aligner: &Aligner<S>, step: Step, visitor: &mut V)
        requires ready { length aligner.now.ready ≡ frames_gained step }
        ensures shown { visitor.new ≡ fold V.shown visitor.old (deliveries_behind self.old.last.bits (gained step aligner.now.ready)) }
        ensures last { self.new.last.bits ≡ last_of self.old.last.bits (gained step aligner.now.ready) }
    {
        match step {
            Step::Aligned => self.show_all(aligner, 3, visitor),
            Step::Frame => self.show_all(aligner, 1, visitor),
            Step::Lost => self.last.clear(),
            Step::Nothing => {}
            Step::Rejected => {}
        }
    }
}
