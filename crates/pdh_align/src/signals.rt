//! What held frames are judged by: the alignment slots of their shape, what is wrong in them, and
//! whether that completes a loss.

ghost use Rattle.std.specs.Prelude.{◌≡◌, ◌<◌, ◌≤◌, ◌+◌, ◌*◌, ◌&&◌, ◌||◌, ℕ, true, false, length, take, drop, IfOk};
ghost use Rattle.pdh_shape.specs.Frame.{is_right as is_right_in, wrong as wrong_in, clean as clean_marks, framing_mark, is_multi};
ghost use Rattle.pdh_shape.specs.declared.role.Mark.TheVariants.{Framing};
ghost use Rattle.pdh_line.specs.Tracking.{is_confirmed as is_confirmed_in};
ghost use Rattle.pdh_align.specs.Signals.{AreSignals, Judges};

use pdh_packed::{BitRing, Packed};
use pdh_phases::signal_number;
use pdh_shape::{Mark, Marks, Role, Shape};
use std::alloc::{AllocError, Global};

/// An alignment slot and the bit that it has in a right frame.
#[derive(Clone, Copy, Debug, PartialEq, Eq)]
pub struct Signal {
    /// The slot, counted from 0.
    pub slot: u32,
    /// The bit.
    pub bit: bool,
}

/// What frames of a shape are judged by.
#[derive(Drop)]
pub struct Signals {
    /// The alignment slots, in slot order.
    pub slots: Vec<Signal>,
    /// The number that the bits of the alignment signal write, where it begins the frame.
    pub number: u64,
}

impl Signals {
    /// Those of a shape; or it finds no memory.
    pub fn of<S: Shape>(alloc: Global) -> Result<Signals, AllocError>
        ensures { IfOk result (λ signals. Judges S.shape signals) }
    {
        let slots = slots_of::<S>(alloc)?;
        Ok(Signals {
            slots,
            number: signal_number::<S>(),
        })
    }
}

// The alignment slots of a shape, in slot order.
fn slots_of<S: Shape>(alloc: Global) -> Result<Vec<Signal>, AllocError>
    ensures { IfOk result (λ slots. AreSignals S.shape slots.items) }
{
    let mut slots = Vec::new(alloc);
    for slot in 0..S::LEN {
        if let Role::Align(bit) = S::role(slot) {
            slots.push(Signal { slot, bit })?;
        }
    }
    Ok(slots)
}

/// Whether the frame that begins at a bit of those that are held has its alignment signal. Where the
/// signal doesn't begin the frame, it reads the alignment slots alone, up to the first wrong one.
pub fn is_right<S: Shape>(signals: &Signals, held: &BitRing, start: u32) -> bool
    requires judges { Judges S.shape signals.now }
    requires whole { start + S.LEN ≤ length held.now.bits }
    ensures { result ≡ is_right_in S.shape (take S.LEN (drop start held.now.bits)) }
{
    if S::SIGNAL > 0 {
        return held.read(start, S::SIGNAL).number() == signals.number;
    }
    has_bits::<S>(&signals.slots, held, start)
}

// The same by the alignment slots one by one.
fn has_bits<S: Shape>(slots: &[Signal], held: &BitRing, start: u32) -> bool
    requires signals { AreSignals S.shape slots.now }
    requires whole { start + S.LEN ≤ length held.now.bits }
    ensures { result ≡ is_right_in S.shape (take S.LEN (drop start held.now.bits)) }
{
    // a ring's length is bounded, and so is each place in it
    let _held = held.held();
    for signal in slots {
        if held.bit(start + signal.slot) != signal.bit {
            return false;
        }
    }
    true
}

// Whether a frame has its alignment signal, by which it is judged as `is_right` judges one of those that are held.
fn frame_is_right<S: Shape>(signals: &Signals, frame: &Packed) -> bool
    requires judges { Judges S.shape signals.now }
    requires whole { length frame.now.bits ≡ S.LEN }
    ensures { result ≡ is_right_in S.shape frame.now.bits }
{
    if S::SIGNAL > 0 {
        return frame.read(0, S::SIGNAL).number() == signals.number;
    }
    frame_has_bits::<S>(&signals.slots, frame)
}

// The same by the alignment slots one by one.
fn frame_has_bits<S: Shape>(slots: &[Signal], frame: &Packed) -> bool
    requires signals { AreSignals S.shape slots.now }
    requires whole { length frame.now.bits ≡ S.LEN }
    ensures { result ≡ is_right_in S.shape frame.now.bits }
{
    for signal in slots {
        if frame.get(signal.slot as usize) != signal.bit {
            return false;
        }
    }
    true
}

/// Whether three right frames are held. A frame is judged only where those before it are right.
pub fn three_right<S: Shape>(signals: &Signals, held: &BitRing) -> bool
    requires judges { Judges S.shape signals.now }
    requires whole { length held.now.bits ≡ 3 * S.LEN }
    ensures { result ≡ is_confirmed_in S.shape held.now.bits }
{
    if !is_right::<S>(signals, held, 0) {
        return false;
    }
    if !is_right::<S>(signals, held, S::LEN) {
        return false;
    }
    is_right::<S>(signals, held, 2 * S::LEN)
}

/// No alignment slot is wrong.
pub fn clean() -> Marks
    ensures { result ≡ clean_marks }
{
    Marks {
        framing: 0,
        multi: false,
    }
}

// Whether no alignment slot is wrong.
fn is_clean(marks: &Marks) -> bool
    ensures { result ≡ true → marks.now ≡ clean_marks }
{
    marks.framing == 0 && !marks.multi
}

/// Whether a frame with marks d completes a loss of alignment, after frames with marks a, b and c. The
/// shape's rule is asked only where something is wrong in one of them.
pub fn completes_loss<S: Shape>(a: &Marks, b: &Marks, c: &Marks, d: &Marks) -> bool
    ensures { result ≡ S.shape.loses a.now b.now c.now d.now }
{
    if is_clean(a) && is_clean(b) && is_clean(c) && is_clean(d) {
        return false;
    }
    S::loses(a, b, c, d)
}

// The value of a framing slot's bit in the marks, where the slot is wrong.
fn framing_bit(mark: Mark, broken: bool) -> u64
    requires { (number : ℕ) → mark ≡ Framing number → number < 64 }
    ensures { result ≡ framing_mark mark broken }
{
    match mark {
        Mark::Framing(number) => { if broken { 1 << number } else { 0 } }
        Mark::Multi => 0,
        Mark::Other => 0,
    }
}

// Whether some multiframe slot was wrong before, or this one is.
fn multi_bit(before: bool, mark: Mark, broken: bool) -> bool
    ensures { result ≡ (before || (is_multi mark && broken)) }
{
    match mark {
        Mark::Multi => before || broken,
        Mark::Framing(_) => before,
        Mark::Other => before,
    }
}

// What is wrong in a frame, by its alignment slots.
fn wrong_slots<S: Shape>(slots: &[Signal], frame: &Packed) -> Marks
    requires signals { AreSignals S.shape slots.now }
    requires whole { length frame.now.bits ≡ S.LEN }
    ensures { result ≡ wrong_in S.shape frame.now.bits }
{
    let mut framing = 0u64;
    let mut multi = false;
    for signal in slots {
        let broken = frame.get(signal.slot as usize) != signal.bit;
        let mark = S::mark(signal.slot);
        framing += framing_bit(mark, broken);
        multi = multi_bit(multi, mark, broken);
    }
    Marks { framing, multi }
}

/// What is wrong in a frame. Its slots are looked at only where it isn't right.
pub fn wrong<S: Shape>(signals: &Signals, frame: &Packed) -> Marks
    requires judges { Judges S.shape signals.now }
    requires whole { length frame.now.bits ≡ S.LEN }
    ensures { result ≡ wrong_in S.shape frame.now.bits }
{
    if frame_is_right::<S>(signals, frame) {
        return clean();
    }
    wrong_slots::<S>(&signals.slots, frame)
}
