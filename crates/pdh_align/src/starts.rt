//! Positions at which two right frames don't stand, found 64 at a time, where the alignment slots are
//! spread over the frame.

ghost use Rattle.std.specs.Prelude.{◌≡◌, ◌<◌, ◌≤◌, ◌+◌, ◌*◌, ◌&&◌, ℕ, true, false, length, take, drop, get_or};
ghost use Rattle.std.specs.Bool.{beq};
ghost use Rattle.pdh_shape.specs.Frame.{is_right as is_right_in};
ghost use Rattle.pdh_align.specs.Signals.{AreSignals};
ghost use Rattle.pdh_align.specs.Searching.{two_right};

use crate::signals::Signal;
use pdh_packed::{BitRing, Word};
use pdh_shape::Shape;

// The candidates that are left where each has its bit of these, which has to have this value.
fn kept(candidates: Word, bits: Word, value: bool) -> Word
    requires { length bits ≡ length candidates }
    ensures count { length result ≡ length candidates }
    ensures kept { (i : ℕ) → i < length candidates
        → get_or result i false ≡ (get_or candidates i false && beq (get_or bits i false) value) }
{
    let others = if value { bits.number() } else { !bits.number() };
    Word::of(candidates.number() & others, candidates.len())
}

// So many candidates, some at least.
fn all(count: u32) -> Word
    requires some { 0 < count }
    requires few { count ≤ 64 }
    ensures count { length result ≡ count }
    ensures all { (i : ℕ) → i < count → get_or result i false ≡ true }
{
    Word::of(u64::MAX >> (64 - count), count)
}

// Those of these candidates, which are positions one after another, at which the frame is right. It
// reads the bits that they have in an alignment slot at once, and ends at the slot after which none is left.
fn right_starts<S: Shape>(slots: &[Signal], held: &BitRing, start: u32, candidates: Word) -> Word
    requires signals { AreSignals S.shape slots.now }
    requires whole { start + length candidates + S.LEN ≤ length held.now.bits + 1 }
    ensures count { length result ≡ length candidates }
    ensures right { (i : ℕ) → i < length candidates → get_or result i false
        ≡ (get_or candidates i false && is_right_in S.shape (take S.LEN (drop (start + i) held.now.bits))) }
{
    // a ring's length is bounded, and so is each place in it
    let _held = held.held();
    let count = candidates.len();
    let mut right = candidates;
    for signal in slots {
        if right.number() == 0 {
            return right;
        }
        right = kept(right, held.read(start + signal.slot, count), signal.bit);
    }
    right
}

// At which of so many positions, from one on, two right frames stand. The second is looked at only
// where the first is right.
fn two_right_starts<S: Shape>(slots: &[Signal], held: &BitRing, start: u32, count: u32) -> Word
    requires signals { AreSignals S.shape slots.now }
    requires some { 0 < count }
    requires few { count ≤ 64 }
    requires whole { start + count + 2 * S.LEN ≤ length held.now.bits + 1 }
    ensures count { length result ≡ count }
    ensures right { (i : ℕ) → i < count → get_or result i false ≡ two_right S.shape held.now.bits (start + i) }
{
    // a ring's length is bounded, and so is each place in it
    let _held = held.held();
    let first = right_starts::<S>(slots, held, start, all(count));
    right_starts::<S>(slots, held, start + S::LEN, first)
}

// At how many of so many positions from one on, one after another, two right frames don't stand.
fn wrong_from<S: Shape>(slots: &[Signal], held: &BitRing, start: u32, count: u32) -> u32
    requires signals { AreSignals S.shape slots.now }
    requires some { 0 < count }
    requires few { count ≤ 64 }
    requires whole { start + count + 2 * S.LEN ≤ length held.now.bits + 1 }
    ensures count { result ≤ count }
    ensures wrong { (i : ℕ) → i < result → two_right S.shape held.now.bits (start + i) ≡ false }
{
    let right = two_right_starts::<S>(slots, held, start, count);
    if right.number() == 0 {
        return count;
    }
    for place in 0..count {
        if right.get(place) {
            return place;
        }
    }
    count
}

/// At how many of the oldest positions, one after another and so many at most, two right frames don't
/// stand.
pub fn wrong_starts<S: Shape>(slots: &[Signal], held: &BitRing, most: u32) -> u32
    requires signals { AreSignals S.shape slots.now }
    requires whole { most + 2 * S.LEN ≤ length held.now.bits + 1 }
    ensures count { result ≤ most }
    ensures wrong { (i : ℕ) → i < result → two_right S.shape held.now.bits i ≡ false }
{
    let mut done = 0;
    while done < most {
        let count = (most - done).min(64);
        let wrong = wrong_from::<S>(slots, held, done, count);
        if wrong < count {
            return done + wrong;
        }
        done += count;
    }
    most
}
