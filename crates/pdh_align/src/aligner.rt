//! The aligner: it takes a received line bit by bit or many bits at once, and holds at most three
//! frames of it.

ghost use Rattle.std.specs.Prelude.{◌≡◌, ◌↔◌, ◌+◌, ◌*◌, ◌<◌, ◌≤◌, ℕ, Bool, true, false, List, [], ◌++◌, length, take, drop, cond, IfOk, IfSome, IsSome};
ghost use Rattle.std.specs.List.{slice_index_or};
ghost use Rattle.pdh_shape.specs.Frame.{wrong as wrong_in};
ghost use Rattle.pdh_phases.specs.Keeping.{StandsFor as PhasesStandFor};
ghost use Rattle.pdh_align.specs.Aligning.{Held, Turns, Tracks, Waits, Passes, StandsFor, frame_back, frames_gained};
ghost use Rattle.pdh_align.specs.OpenGap.{EndsInGap};

use crate::Step;
use crate::search::Search;
use crate::signals::{Signals, clean, completes_loss, wrong};
use pdh_packed::{BitRing, Packed};
use pdh_phases::Phases;
use pdh_shape::{Marks, Shape};
use std::alloc::{AllocError, Global};
use std::marker::{Model, PhantomData};
use std::mem;

/// Finds frame alignment in a line, and loses it (ITU-T G.742, 4). Only `open` takes memory.
#[derive(Drop)]
pub struct Aligner<S: Shape> {
    searching: bool,
    // the bits that it holds are the frames that the last step made ready
    fresh: bool,
    // what was wrong in the last three frames
    before: [Marks; 3],
    signals: Signals,
    // while it searches, and as it ends a search, the bits from the oldest position on
    held: BitRing,
    // else those since the last frame
    frame: Packed,
    search: Search<S>,
    of: PhantomData<S>,
}

impl<S: Shape> Model for Aligner<S> {
    ghost use Rattle.std.specs.Prelude.{◌++◌};
    ghost use Rattle.pdh_align.specs.Aligning.{Held};
    ghost use Rattle.pdh_align.specs.View.{held_of, HoldsEnough};

    ghost Value = { Held };

    ghost view = { λ a. held_of S.LEN a.searching a.fresh a.before (a.held.bits ++ a.frame.bits) a.search };

    ghost invariant = { λ a. HoldsEnough S.shape S.LEN a.searching a.fresh a.signals a.held a.frame a.search a.before };
}

// Forgets the frames that the last step made ready.
fn clear_ready(held: &mut BitRing, frame: &mut Packed, fresh: &mut bool)
    ensures held { held.new ≡ record held.old { bits = cond fresh.old [] held.old.bits } }
    ensures frame { frame.new ≡ record frame.old { bits = cond fresh.old [] frame.old.bits } }
    ensures fresh { fresh.new ≡ false }
{
    if *fresh {
        held.clear();
        frame.clear();
        *fresh = false;
    }
}

// Drops the oldest bits that are held, and adds as many of a list.
fn slide(held: &mut BitRing, bits: &Packed, from: usize, count: u32)
    requires within { from + count ≤ length bits.now.bits }
    requires held { count ≤ length held.old.bits }
    requires room { length held.old.bits ≤ held.old.capacity }
    ensures { held.new ≡ record held.old { bits = drop count held.old.bits ++ take count (drop from bits.now.bits) } }
{
    held.drop_oldest(count);
    held.append_from(bits, from, count as usize);
}

impl<S: Shape> Aligner<S> {
    /// An aligner that searches, and has taken no bit; or it finds no memory.
    pub fn open(alloc: Global) -> Result<Aligner<S>, AllocError>
        ensures stands { IfOk result (λ a. StandsFor S.shape a []) }
        ensures ready { IfOk result (λ a. a.ready ≡ []) }
    {
        let signals = Signals::of::<S>(alloc)?;
        let held = BitRing::open(alloc, (3 * S::LEN + 63) / 64 * 64)?;
        let frame = Packed::open(alloc, S::LEN as usize)?;
        let search = Search::open(alloc)?;
        Ok(Aligner {
            searching: true,
            fresh: false,
            before: [clean(), clean(), clean()],
            signals,
            held,
            frame,
            search,
            of: PhantomData,
        })
    }

    // Takes a bit of the line, at which a frame may end or after which frames were ready.
    #[inline(never)]
    fn end_turn(&mut self, bit: bool) -> Step
        ensures { Turns S.shape self.old self.new bit result }
    {
        clear_ready(&mut self.held, &mut self.frame, &mut self.fresh);
        if self.searching {
            self.held.append_bit(bit);
            self.search.push(bit);
            if self.held.held() < 3 * S::LEN {
                return Step::Nothing;
            }
            if self.search.is_confirmed(&self.signals, &self.held) {
                self.searching = false;
                self.fresh = true;
                self.before = [clean(), clean(), clean()];
                return Step::Aligned;
            }
            self.search.give_up(1);
            self.held.drop_oldest(1);
            return Step::Rejected;
        }
        self.frame.push(bit);
        if self.frame.len() < S::LEN as usize {
            return Step::Nothing;
        }
        let [a, b, c] = self.before;
        let d = wrong::<S>(&self.signals, &self.frame);
        if completes_loss::<S>(&a, &b, &c, &d) {
            self.searching = true;
            self.held.append_from(&self.frame, 0, S::LEN as usize);
            self.frame.clear();
            self.search.restart(&self.held);
            return Step::Lost;
        }
        self.before = [b, c, d];
        self.fresh = true;
        Step::Frame
    }

    // Takes a bit of the line.
    fn turn(&mut self, bit: bool) -> Step
        ensures { Turns S.shape self.old self.new bit result }
    {
        let whole = self.frame.len() + 1 >= S::LEN as usize;
        if whole || self.fresh || self.searching {
            return self.end_turn(bit);
        }
        self.frame.push(bit);
        Step::Nothing
    }

    /// Takes a bit of the line. The step is what the tracking of all bits so far gained by it.
    pub fn push(&mut self, bit: bool) -> Step
        ensures tracks { (line : List Bool) → StandsFor S.shape self.old line → Tracks S.shape self.old self.new bit result line }
        ensures ready { length self.new.ready ≡ frames_gained result }
    {
        self.turn(bit)
    }

    /// Takes bits of the line from a place on, so many at most and up to the one at which a frame
    /// ends, and answers how many. Nothing is gained by them, and no frame is ready.
    pub fn take(&mut self, bits: &Packed, from: usize, most: usize) -> usize
        requires begun { from + most ≤ length bits.now.bits }
        ensures most { result ≤ most }
        ensures waits { (line : List Bool) → StandsFor S.shape self.old line → Waits S.shape self.new (take result (drop from bits.now.bits)) line }
        ensures ready { self.new.ready ≡ [] }
    {
        clear_ready(&mut self.held, &mut self.frame, &mut self.fresh);
        if !self.searching {
            let count = most.min(S::LEN as usize - 1 - self.frame.len());
            self.frame.append_from(bits, from, count);
            return count;
        }
        let room = 3 * S::LEN - 1 - self.held.held();
        let count = most.min(room as usize);
        self.search.push_all(bits, from, count);
        self.held.append_from(bits, from, count);
        count
    }

    /// Takes bits of the line from a place on, so many at most, in a search that waits for the bit at
    /// which its three frames end: those at each of which the oldest position is given up. It answers
    /// how many; where that is none, nothing changes.
    pub fn pass(&mut self, bits: &Packed, from: usize, most: usize) -> usize
        requires begun { from ≤ length bits.now.bits }
        ensures count { from + result ≤ length bits.now.bits }
        ensures most { result ≤ most }
        ensures passes { 0 < result → (line : List Bool) → StandsFor S.shape self.old line → Passes S.shape self.new (take result (drop from bits.now.bits)) line }
        ensures ready { 0 < result → self.new.ready ≡ [] }
        ensures none { result ≡ 0 → self.new ≡ self.old }
    {
        if !self.searching {
            return 0;
        }
        if self.held.held() + 1 < 3 * S::LEN {
            return 0;
        }
        let most = most.min(bits.len() - from).min(S::LEN as usize);
        let count = self.search.rejected(&self.signals, &self.held, most as u32);
        if count == 0 {
            return 0;
        }
        let taken = count as usize;
        self.search.push_all(bits, from, taken);
        self.search.give_up(count);
        slide(&mut self.held, bits, from, count);
        taken
    }

    /// How many bits may come before the one that ends a frame or, in a search that waits for it, a whole frame's length of a gap,
    /// of which so many positions are passed over.
    pub fn ahead(&self, gap: u32) -> u32
        requires { gap < S.LEN }
        ensures { result < 3 * S.LEN }
    {
        if self.fresh {
            return S::LEN - 1;
        }
        if !self.searching {
            return S::LEN - 1 - self.frame.len() as u32;
        }
        let left = 3 * S::LEN - 1 - self.held.held();
        if left == 0 {
            return S::LEN - 1 - gap;
        }
        left
    }

    /// Appends the frame that stands `back` frames before the newest of the ready ones to a list that
    /// has room for it.
    pub fn append_frame(&self, back: u8, into: &mut Packed)
        requires ready { back < length self.now.ready }
        requires room { length into.old.bits + S.LEN ≤ into.old.capacity }
        ensures appended { into.new ≡ record into.old { bits = into.old.bits ++ frame_back self.now.ready back } }
        ensures whole { length (frame_back self.now.ready back) ≡ S.LEN }
    {
        if self.frame.len() > 0 {
            into.append_all(&self.frame);
            return;
        }
        let after = (u32::from(back) + 1) * S::LEN;
        self.held.append_to(self.held.held() - after, S::LEN, into);
    }

    /// Exchanges the ready frame, where there is one alone, for the bits of a list that has room for it and no more, and
    /// answers whether there was. Then it is ready no longer.
    pub fn exchange_frame(&mut self, list: &mut Packed) -> bool
        requires { list.old.capacity ≡ S.LEN }
        ensures one { result ≡ true ↔ (length self.old.ready ≡ 1) }
        ensures exchanged { result ≡ true → (list.new ≡ record list.old { bits = frame_back self.old.ready 0 }) × (self.new ≡ record self.old { ready = [] }) }
        ensures none { result ≡ false → (list.new ≡ list.old) × (self.new ≡ self.old) }
        ensures whole { result ≡ true → length list.new.bits ≡ S.LEN }
    {
        if !self.fresh || self.frame.len() == 0 {
            return false;
        }
        list.clear();
        mem::swap(&mut self.frame, list);
        self.fresh = false;
        true
    }

    /// A bit of the frame that stands `back` frames before the newest of the ready ones.
    pub fn frame(&self, back: u8, slot: u32) -> bool
        requires ready { back < length self.now.ready }
        requires in_frame { slot < S.LEN }
        ensures { result ≡ slice_index_or (frame_back self.now.ready back) slot false }
    {
        if self.frame.len() > 0 {
            return self.frame.get(slot as usize);
        }
        let after = (u32::from(back) + 1) * S::LEN;
        self.held.bit(self.held.held() - after + slot)
    }

    /// What is wrong in the newest of the ready frames.
    pub fn marks(&self) -> Marks
        requires { 0 < length self.now.ready }
        ensures { result ≡ wrong_in S.shape (frame_back self.now.ready 0) }
    {
        self.before[2]
    }

    /// The phases that a search goes by, which took the bits since its first; none where the shape's
    /// frame doesn't begin with its alignment signal.
    pub fn phases(&self) -> Option<&Phases<S>>
        ensures some { IsSome result ↔ (0 < S.SIGNAL) }
        ensures stands { IfSome result (λ phases. (line : List Bool) (q : ℕ) → StandsFor S.shape self.now line
            → EndsInGap S.shape line q → PhasesStandFor S.shape phases.now (drop q line)) }
    {
        self.search.phases()
    }
}
