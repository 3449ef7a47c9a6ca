//! A ready frame, or the ones of a gap, taken apart, for those who read it tributary by tributary.

ghost use Rattle.std.specs.Prelude.{◌≡◌, ◌<◌, ◌≤◌, true, false, length};
ghost use Rattle.pdh_align.specs.Aligning.{frame_back};
ghost use Rattle.pdh_runs.specs.Taking.{StandsInTurn};
ghost use Rattle.pdh_events.specs.Duties.{is_odd};
ghost use Rattle.pdh_rx.specs.Places.{loaded_cell, loaded_places, loaded_bits, StandsAt};

use pdh_align::Aligner;
use pdh_packed::Packed;
use pdh_runs::{Layout, Parts};
use pdh_shape::Shape;
use std::alloc::{AllocError, Global};
use std::marker::Model;
use std::rc::Rc;

/// Takes ready frames of an aligner apart, and gaps as long as a frame: first one is loaded, and then the bits of one tributary
/// after another are read of it. Only `open` takes memory.
#[derive(Drop)]
pub struct Strip<S: Shape> {
    // room for a frame
    frame: Packed,
    parts: Parts<S>,
    // the ones of a gap are read, and not the frame
    gap: bool,
}

impl<S: Shape> Model for Strip<S> {
    ghost use Rattle.std.specs.Prelude.{◌≡◌, true, if◌then◌else◌, replicate};
    ghost use Rattle.pdh_rx.specs.Places.{Loaded};

    // the frame that was loaded last, whether the ones of a gap were loaded after it, and the bits of the tributary that were
    // read last
    ghost Value = { Loaded };

    ghost view = { λ t. record { gap = t.gap; frame = t.parts.frame; bits = if t.gap then replicate S.shape.low true else t.parts.bits } };

    ghost invariant = { λ t. t.frame.capacity ≡ S.LEN };
}

// Puts a ready frame into a list that has room for it and no more: in exchange for its bits, where it alone is ready.
fn take_frame<S: Shape>(aligner: &mut Aligner<S>, back: u8, frame: &mut Packed)
    requires ready { back < length aligner.old.ready }
    requires room { frame.old.capacity ≡ S.LEN }
    ensures frame { frame.new ≡ record frame.old { bits = frame_back aligner.old.ready back } }
    ensures whole { length frame.new.bits ≡ S.LEN }
    ensures aligner { aligner.new ≡ record aligner.old { ready = aligner.new.ready } }
    ensures ready { 1 < length aligner.old.ready → aligner.new ≡ aligner.old }
{
    if aligner.exchange_frame(frame) {
        return;
    }
    frame.clear();
    aligner.append_frame(back, frame);
}

impl<S: Shape> Strip<S> {
    /// Takes frames of this layout apart; or it finds no memory.
    pub fn open(alloc: Global, layout: Rc<Layout<S>>) -> Result<Strip<S>, AllocError> {
        Ok(Strip {
            frame: Packed::open(alloc, S::LEN as usize)?,
            parts: Parts::open(alloc, layout)?,
            gap: false,
        })
    }

    /// Loads a ready frame, which is ready no longer then, where it alone was.
    pub fn load(&mut self, aligner: &mut Aligner<S>, back: u8)
        requires { back < length aligner.old.ready }
        ensures frame { self.new.frame ≡ frame_back aligner.old.ready back }
        ensures whole { length self.new.frame ≡ S.LEN }
        ensures gap { self.new.gap ≡ false }
        ensures aligner { aligner.new ≡ record aligner.old { ready = aligner.new.ready } }
        ensures ready { 1 < length aligner.old.ready → aligner.new ≡ aligner.old }
    {
        self.gap = false;
        take_frame::<S>(aligner, back, &mut self.frame);
        self.parts.exchange(&mut self.frame);
    }

    /// Loads the ones of a gap as long as a frame.
    pub fn load_ones(&mut self)
        ensures { self.new.gap ≡ true }
    {
        self.gap = true;
    }

    /// Reads the bits of a tributary.
    pub fn read(&mut self, trib: u8)
        requires { trib < S.TRIBS }
        ensures frame { self.new.frame ≡ self.old.frame }
        ensures gap { self.new.gap ≡ self.old.gap }
        ensures bits { self.new.bits ≡ loaded_bits S.shape self.old.gap self.old.frame trib }
    {
        if self.gap {
            return;
        }
        self.parts.read(trib);
    }

    /// The bits that were read last.
    pub fn bits(&self) -> &Packed
        ensures { result.now.bits ≡ self.now.bits }
    {
        if self.gap {
            return self.parts.ones();
        }
        self.parts.bits()
    }

    /// The frame.
    pub fn frame(&self) -> &Packed
        ensures { result.now.bits ≡ self.now.frame }
    {
        self.parts.frame()
    }

    /// Whether the payload of the frame holds an odd number of ones.
    pub fn is_odd(&self) -> bool
        ensures { result ≡ is_odd S.shape self.now.frame }
    {
        self.parts.is_odd()
    }

    /// How many places there are, one for each tributary in turn.
    pub fn places(&self) -> usize
        ensures { result ≡ loaded_places S.shape self.now.gap }
    {
        let tribs = usize::from(S::TRIBS);
        if self.gap {
            return S::LOW as usize * tribs;
        }
        tribs * (S::LOW as usize + 1)
    }

    // The turn in which a bit stands of the tributary that was read last.
    fn turn(&self, trib: u8, before: usize) -> usize
        requires known { trib < S.TRIBS }
        requires read { self.now.bits ≡ loaded_bits S.shape self.now.gap self.now.frame trib }
        requires inside { before < length self.now.bits }
        ensures gap { self.now.gap ≡ true → result ≡ before }
        ensures frame { self.now.gap ≡ false → StandsInTurn S.shape trib self.now.frame before result }
    {
        if self.gap {
            return before;
        }
        self.parts.turn(trib, before)
    }

    /// The place at which the tributary that was read last gets its next bit, where it has got so many; or the places' end.
    pub fn place(&self, trib: u8, before: usize) -> usize
        requires known { trib < S.TRIBS }
        requires read { self.now.bits ≡ loaded_bits S.shape self.now.gap self.now.frame trib }
        requires few { before ≤ length self.now.bits }
        ensures { StandsAt S.shape.tribs (loaded_cell S.shape self.now.gap self.now.frame) (loaded_places S.shape self.now.gap) trib self.now.bits before result }
    {
        let places = self.places();
        if before == self.bits().len() {
            return places;
        }
        self.turn(trib, before) * usize::from(S::TRIBS) + usize::from(trib)
    }
}
