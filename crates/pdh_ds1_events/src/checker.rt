//! The check of extended superframes by their CRC-6, and what a step of the alignment machine shows.

ghost use Rattle.std.specs.Prelude.{◌≡◌, ◌<◌, ◌++◌, List, Bool, [], ◌∷◌, None, length, map, take, IfOk};
ghost use Rattle.pdh_line.specs.Tracking.Piece.{Delivered};
ghost use Rattle.pdh_line.specs.Paths.{top};
ghost use Rattle.pdh_align.specs.Aligning.{frame_back, frames_gained};
ghost use Rattle.pdh_events.specs.Telling.{tell};
ghost use Rattle.pdh_ds1.specs.Receiving.{carried_word, judgement};
ghost use Rattle.pdh_ds1_events.specs.Events.{crc_kinds};
ghost use Rattle.pdh_ds1_events.specs.Checking.{checked, word_behind_all, step_kinds, word_after};

use pdh_align::{Aligner, Step};
use pdh_ds1::{InSuperframe, Superframe, carried, word_of};
use pdh_events::note_kind;
use pdh_packed::Packed;
use pdh_shape::TOP;
use pdh_watch::{Kind, Watch};
use std::alloc::{AllocError, Global};
use std::marker::{Model, PhantomData};

/// Checks each extended superframe behind another in the same alignment: it carries that one's word. Only `open` takes memory.
#[derive(Drop)]
pub(crate) struct Checker<P: InSuperframe> {
    // room for a superframe
    superframe: Packed,
    // that of the superframe before in the same alignment, in the extended form
    word: Option<u8>,
    of: PhantomData<P>,
}

impl<P: InSuperframe> Model for Checker<P> {
    ghost use Rattle.std.specs.Prelude.{◌≡◌, Option, ℕ};

    // the word
    ghost Value = { Option ℕ };

    ghost view = { λ c. c.word };

    ghost invariant = { λ c. c.superframe.capacity ≡ P.PLAN.len };
}

// Notes that a superframe is in error that carries one word behind one that has another, if there is one.
fn note_checked<W: Watch>(before: Option<u8>, carried: u8, number: u64, watch: &mut W)
    ensures { (superframe : List Bool) → carried ≡ carried_word superframe
        → W.saw watch.old (tell top number (crc_kinds (judgement (Delivered superframe) before))) watch.new }
{
    let Some(word) = before else {
        return;
    };
    if carried == word {
        return;
    }
    note_kind(Kind::CRC, TOP, number, watch);
}

impl<P: InSuperframe> Checker<P> {
    /// For a line of which no superframe came; or it finds no memory.
    pub(crate) fn open(alloc: Global) -> Result<Checker<P>, AllocError>
        ensures { IfOk result (λ checker. checker ≡ None) }
    {
        Ok(Checker {
            superframe: Packed::open(alloc, P::PLAN.len as usize)?,
            word: None,
            of: PhantomData,
        })
    }

    // An alignment ends.
    fn end(&mut self)
        ensures { self.new ≡ None }
    {
        self.word = None;
    }

    // Checks a ready superframe, and notes that it is in error.
    fn check<W: Watch>(
        &mut self,
        aligner: &Aligner<Superframe<P>>,
        back: u8,
        number: u64,
        watch: &mut W,
    )
        requires ready { back < length aligner.now.ready }
        ensures word { self.new ≡ word_behind_all P.PLAN self.old (Delivered (frame_back aligner.now.ready back) ∷ []) }
        ensures seen { W.saw watch.old
            (tell top number (crc_kinds (checked P.PLAN self.old (Delivered (frame_back aligner.now.ready back) ∷ [])))) watch.new }
    {
        if P::PLAN.frames != 24 {
            return;
        }
        self.superframe.clear();
        aligner.append_frame(back, &mut self.superframe);
        note_checked(self.word, carried(&self.superframe), number, watch);
        self.word = Some(word_of(24, &self.superframe, 0));
    }

    // Checks the ready superframes, of which there are so many, oldest first.
    fn check_all<W: Watch>(
        &mut self,
        aligner: &Aligner<Superframe<P>>,
        ready: u8,
        number: u64,
        watch: &mut W,
    )
        requires { length aligner.now.ready ≡ ready }
        ensures word { self.new ≡ word_behind_all P.PLAN self.old (map Delivered aligner.now.ready) }
        ensures seen { W.saw watch.old (tell top number (crc_kinds (checked P.PLAN self.old (map Delivered aligner.now.ready)))) watch.new }
    {
        for done in 0..ready {
            self.check(aligner, ready - 1 - done, number, watch);
        }
    }

    /// Notes what a step of the aligner at a bit shows of the alignment, and checks the superframes that it made ready.
    pub(crate) fn act<W: Watch>(
        &mut self,
        aligner: &Aligner<Superframe<P>>,
        step: Step,
        number: u64,
        watch: &mut W,
    )
        requires { length aligner.now.ready ≡ frames_gained step }
        ensures word { self.new ≡ word_after P.PLAN self.old step (map Delivered aligner.now.ready) }
        ensures seen { W.saw watch.old
            (tell top number (step_kinds step ++ crc_kinds (checked P.PLAN self.old (map Delivered aligner.now.ready)))) watch.new }
    {
        match step {
            Step::Aligned => {
                note_kind(Kind::ALIGNED, TOP, number, watch);
                self.check_all(aligner, 3, number, watch);
            }
            Step::Frame => self.check_all(aligner, 1, number, watch),
            Step::Lost => {
                note_kind(Kind::LOST, TOP, number, watch);
                self.end();
            }
            Step::Rejected => {}
            Step::Nothing => {}
        }
    }
}
