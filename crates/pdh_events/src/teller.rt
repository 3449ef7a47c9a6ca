//! What the service bits of a node's delivered frames tell, frame by frame. A parity is told only
//! of the frame before in the same alignment.

ghost use Rattle.std.specs.Prelude.{◌≡◌, ℕ, Bool, true, false, Some, List, [], ◌∷◌, ◌++◌, length, IfOk};
ghost use Rattle.pdh_line.specs.Tracking.{Piece};
ghost use Rattle.pdh_line.specs.Tracking.Piece.{Gap, Delivered};
ghost use Rattle.pdh_events.specs.Telling.{tell};
ghost use Rattle.pdh_events.specs.Duties.{agreed, alarm_says, breaks_parity, breaks_path_parity, parity_kinds, febe_kinds, is_odd, TellAlike, frame_events};
ghost use Rattle.pdh_events.specs.Keeping.{Remembers};

use crate::alarm::{AlarmSlot, agreed_alarm, alarm_slots_of};
use crate::bits::{any_differs, most_are_ones};
use crate::codes::note_codes;
use crate::duties::slots_of;
use crate::note::{note_change, note_if};
use pdh_cbit::FeacReceiver;
use pdh_packed::Packed;
use pdh_runs::Layout;
use pdh_shape::{Duty, Path, Shape};
use pdh_watch::{Kind, Watch};
use std::alloc::{AllocError, Global};
use std::marker::{Model, PhantomData};

/// Tells the events of delivered frames: the remote alarm, parity and path parity, far end block errors, and the codes of
/// the far end alarm and control channel, of a shape whose service bits tell them. Only `open` takes memory: it finds
/// the slots that tell something.
#[derive(Drop)]
pub struct FrameTeller<S: Shape> {
    alarm_slots: Vec<AlarmSlot>,
    parity_slots: Vec<u16>,
    path_parity_slots: Vec<u16>,
    febe_slots: Vec<u16>,
    feac_slots: Vec<u16>,
    alarm: bool,
    // whether the frame before in the same alignment is odd, if there is one
    odd: Option<bool>,
    channel: FeacReceiver,
    of: PhantomData<S>,
}

impl<S: Shape> Model for FrameTeller<S> {
    ghost use Rattle.pdh_events.specs.Keeping.{Kept, DutySlots};

    ghost Value = { Kept };

    ghost view = { λ t. record { alarm = t.alarm; odd = t.odd; channel = t.channel } };

    ghost invariant = { λ t. DutySlots S.shape t.alarm_slots.items t.parity_slots.items
        t.path_parity_slots.items t.febe_slots.items t.feac_slots.items };
}

impl<S: Shape> FrameTeller<S> {
    /// For a line that has no bit yet, of frames of this layout; or it finds no memory.
    pub fn open(alloc: Global, layout: &Layout<S>) -> Result<FrameTeller<S>, AllocError>
        ensures { IfOk result (λ teller. Remembers S.shape teller []) }
    {
        let overhead = layout.overhead_slots();
        Ok(FrameTeller {
            alarm_slots: alarm_slots_of::<S>(alloc, overhead)?,
            parity_slots: slots_of::<S>(alloc, overhead, Duty::Parity)?,
            path_parity_slots: slots_of::<S>(alloc, overhead, Duty::PathParity)?,
            febe_slots: slots_of::<S>(alloc, overhead, Duty::Febe)?,
            feac_slots: slots_of::<S>(alloc, overhead, Duty::Feac)?,
            alarm: false,
            odd: None,
            channel: FeacReceiver::new(),
            of: PhantomData,
        })
    }

    /// The alignment is lost, so that a gap begins.
    pub fn lose(&mut self)
        ensures { (pieces : List Piece) (positions : ℕ) → Remembers S.shape self.old pieces
            → Remembers S.shape self.new (pieces ++ Gap positions ∷ []) }
    {
        self.odd = None;
    }

    // Whether there is an alarm after a frame.
    fn alarm_after(&self, frame: &Packed) -> bool
        requires { length frame.now.bits ≡ S.LEN }
        ensures { result ≡ agreed self.now.alarm (alarm_says S.shape frame.now.bits) }
    {
        agreed_alarm(&self.alarm_slots, self.alarm, frame)
    }

    /// Whether its frames tell the parity of the frame before.
    pub fn tells_parity(&self) -> bool
        ensures { result ≡ false → (a b : Bool) → TellAlike S.shape (Some a) (Some b) }
    {
        !self.parity_slots.is_empty() || !self.path_parity_slots.is_empty()
    }

    // Whether a frame's parity bits tell another parity than this.
    fn breaks_parity(&self, odd: bool, frame: &Packed) -> bool
        requires { length frame.now.bits ≡ S.LEN }
        ensures { result ≡ breaks_parity S.shape odd frame.now.bits }
    {
        any_differs(&self.parity_slots, odd, frame)
    }

    // Whether a frame has path parity bits, and most of them tell another parity than this.
    fn breaks_path_parity(&self, odd: bool, frame: &Packed) -> bool
        requires { length frame.now.bits ≡ S.LEN }
        ensures { result ≡ breaks_path_parity S.shape odd frame.now.bits }
    {
        let slots = &self.path_parity_slots;
        !slots.is_empty() && most_are_ones(slots, frame) != odd
    }

    // Notes where a frame's parity and path parity bits don't tell the parity of the frame before, if there is one.
    fn note_parity<W: Watch>(&self, frame: &Packed, path: Path, bit: u64, watch: &mut W)
        requires { length frame.now.bits ≡ S.LEN }
        ensures { W.saw watch.old (tell path bit (parity_kinds S.shape self.now.odd frame.now.bits)) watch.new }
    {
        if let Some(odd) = self.odd {
            let parity = self.breaks_parity(odd, frame);
            note_if(parity, Kind::PARITY, path, bit, watch);
            let path_parity = self.breaks_path_parity(odd, frame);
            note_if(path_parity, Kind::PATH_PARITY, path, bit, watch);
        }
    }

    // Notes where a frame tells a far end block error.
    fn note_febe<W: Watch>(&self, frame: &Packed, path: Path, bit: u64, watch: &mut W)
        requires { length frame.now.bits ≡ S.LEN }
        ensures { W.saw watch.old (tell path bit (febe_kinds S.shape frame.now.bits)) watch.new }
    {
        let febe = any_differs(&self.febe_slots, true, frame);
        note_if(febe, Kind::FEBE, path, bit, watch);
    }

    /// Takes a delivered frame of the line of the node at a path, which the bit of this number delivers, and notes its own
    /// events. It is told whether the frame's payload is odd; where its frames tell no parity, any answer will do.
    pub fn note<W: Watch>(&mut self, frame: &Packed, odd: bool, path: Path, bit: u64, watch: &mut W)
        requires whole { length frame.now.bits ≡ S.LEN }
        requires odd { TellAlike S.shape (Some odd) (Some (is_odd S.shape frame.now.bits)) }
        ensures remembers { (pieces : List Piece) → Remembers S.shape self.old pieces
            → Remembers S.shape self.new (pieces ++ Delivered frame.now.bits ∷ []) }
        ensures seen { (pieces : List Piece) → Remembers S.shape self.old pieces
            → W.saw watch.old (frame_events S.shape path bit pieces frame.now.bits) watch.new }
    {
        let was = self.alarm;
        let alarm = self.alarm_after(frame);
        note_change(
            Kind::ALARM_ON,
            Kind::ALARM_OFF,
            was,
            alarm,
            path,
            bit,
            watch,
        );
        self.note_parity(frame, path, bit, watch);
        self.note_febe(frame, path, bit, watch);
        note_codes(&self.feac_slots, frame, &mut self.channel, path, bit, watch);
        self.alarm = alarm;
        self.odd = Some(odd);
    }
}
