//! The turns of a tributary in the payload. One carries nothing in a frame without an additional
//! bit.

ghost use Rattle.std.specs.Prelude.{◌≡◌, ◌<◌, ◌≤◌, ◌+◌, ◌-◌, ◌++◌, length, map, take, drop, is_some, IfSome, true, if◌then◌else◌};
ghost use Rattle.pdh_shape.specs.Tributary.{reads_below, turned};
ghost use Rattle.pdh_runs.specs.Turns.{AreTurns, empty_before, turn_bits};

use crate::layout::Layout;
use pdh_packed::Packed;
use pdh_shape::Shape;

/// The turns that a tributary has in a piece of a frame.
#[derive(Clone, Copy, Debug, PartialEq, Eq)]
pub struct Turns {
    /// How many it has had in the frame before the piece.
    pub from: usize,
    /// How many it has in the piece.
    pub count: usize,
    /// Which of these carries nothing, counted from 0, if one does.
    pub empty: Option<usize>,
}

impl<S: Shape> Layout<S> {
    // How many turns a tributary has had before a slot, or before the frame's end.
    fn turns_before(&self, trib: u8, slot: u32) -> usize
        requires known { trib < S.TRIBS }
        requires inside { slot ≤ S.LEN }
        ensures { result ≡ reads_below S.shape trib true slot }
    {
        let tribs = usize::from(S::TRIBS);
        (self.payload_before(slot) + (tribs - 1 - usize::from(trib))) / tribs
    }

    /// The turns that a tributary has in a piece of a frame, in a frame that carries an additional bit
    /// of it or doesn't.
    pub fn turns(&self, trib: u8, more: bool, first: u32, len: usize) -> Turns
        requires known { trib < S.TRIBS }
        requires inside { first + len ≤ S.LEN }
        ensures { AreTurns S.shape trib more first len result }
    {
        let from = self.turns_before(trib, first);
        let to = self.turns_before(trib, first + len as u32);
        let just = usize::from(self.tributary(trib).just);
        let empty = if !more && from <= just && just < to {
            Some(just - from)
        } else {
            None
        };
        Turns {
            from,
            count: to - from,
            empty,
        }
    }
}

/// How many of the turns carry a bit.
pub fn carrying(turns: &Turns) -> usize
    requires { IfSome turns.now.empty (λ place. place < turns.now.count) }
    ensures { result + empty_before turns.now.empty turns.now.count ≡ turns.now.count }
{
    match turns.empty {
        None => turns.count,
        Some(_) => turns.count - 1,
    }
}

/// Appends the bits of turns, from a place of a queue on, as the line has them. The empty turn is 1.
#[inline(always)]
pub fn append_turns(turns: &Turns, inverted: bool, queue: &Packed, at: usize, into: &mut Packed)
    requires empty { IfSome turns.now.empty (λ place. place < turns.now.count) }
    requires within { at ≤ length queue.now.bits }
    requires held { at + turns.now.count ≤ length queue.now.bits + (if is_some turns.now.empty then 1 else 0) }
    requires room { length into.old.bits + turns.now.count ≤ into.old.capacity }
    ensures { into.new ≡ record into.old { bits = into.old.bits ++ turn_bits inverted turns.now.empty turns.now.count (drop at queue.now.bits) } }
{
    match turns.empty {
        None => append_turned(inverted, queue, at, turns.count, into),
        Some(place) => {
            // a place fits, since a length does
            let _fits = queue.len();
            append_turned(inverted, queue, at, place, into);
            into.push(true);
            append_turned(inverted, queue, at + place, turns.count - place - 1, into);
        }
    }
}

/// Appends bits of a list, so many from a place on, as the line has them.
#[inline(always)]
pub fn append_turned(inverted: bool, list: &Packed, place: usize, count: usize, into: &mut Packed)
    requires within { place + count ≤ length list.now.bits }
    requires room { length into.old.bits + count ≤ into.old.capacity }
    ensures { into.new ≡ record into.old { bits = into.old.bits ++ map (turned inverted) (take count (drop place list.now.bits)) } }
{
    if inverted {
        into.append_inverted(list, place, count);
    } else {
        into.append_from(list, place, count);
    }
}
