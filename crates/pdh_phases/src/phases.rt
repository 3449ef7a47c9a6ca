//! The phases of a frame, with how often in a row the alignment signal stands at each.

ghost use Rattle.std.specs.Prelude.{◌≡◌, ◌<◌, ◌≤◌, ◌+◌, ◌==◌, ℕ, List, Bool, false, [], ◌∷◌, ◌++◌, length, take, drop, cond, eqb, IfOk};
ghost use Rattle.pdh_phases.specs.Runs.{run_of};
ghost use Rattle.pdh_phases.specs.Keeping.{StandsFor};

use crate::planes::Planes;
use crate::signal::{signal_word, signals, wrong_bits};
use pdh_packed::{Packed, Word};
use pdh_shape::Shape;
use std::alloc::{AllocError, Global};
use std::marker::{Model, PhantomData};

/// How often in a row the alignment signal stands at each phase of a frame, for a shape whose frame
/// begins with it (ITU-T G.742, 4). A bit is read once, when it is taken. Only `open` takes memory.
#[derive(Drop)]
pub struct Phases<S: Shape> {
    // the bits of the alignment signal
    signal: Word,
    // for each of its slots, 64 copies of the bit that is wrong there
    wrong: Vec<Word>,
    // the bits that have come from the next position on, fewer than the signal has
    last: Word,
    // the phase of the next position
    phase: u32,
    // the run of each phase
    planes: Planes,
    of: PhantomData<S>,
}

impl<S: Shape> Model for Phases<S> {
    ghost use Rattle.pdh_phases.specs.Keeping.{Kept, kept_of, Keeps};

    ghost Value = { Kept };

    ghost view = { λ p. kept_of p.last p.phase p.planes };

    ghost invariant = { λ p. Keeps S.shape p.signal p.wrong.items p.last p.phase p.planes };
}

// The phase of a position that stands so many behind one of this phase, in the same frame or at the
// start of the next.
fn phase_after<S: Shape>(phase: u32, count: u32) -> u32
    requires { phase + count ≤ S.LEN }
    ensures { result ≡ cond (eqb (phase + count) S.LEN) 0 (phase + count) }
{
    if phase + count == S::LEN {
        return 0;
    }
    phase + count
}

impl<S: Shape> Phases<S> {
    /// Phases that have seen no bit; or it finds no memory. The shape's frame begins with its
    /// alignment signal.
    pub fn open(alloc: Global) -> Result<Phases<S>, AllocError>
        requires { 0 < S.SIGNAL }
        ensures { IfOk result (λ phases. StandsFor S.shape phases []) }
    {
        let wrong = wrong_bits::<S>(alloc)?;
        let planes = Planes::open(alloc, S::LEN as usize)?;
        Ok(Phases {
            signal: signal_word::<S>(),
            wrong,
            last: Word::empty(),
            phase: 0,
            planes,
            of: PhantomData,
        })
    }

    /// Takes a bit.
    pub fn push(&mut self, bit: bool)
        ensures { (bits : List Bool) → StandsFor S.shape self.old bits → StandsFor S.shape self.new (bits ++ bit ∷ []) }
    {
        let mut window = self.last;
        window.push(bit);
        if window.len() < S::SIGNAL {
            self.last = window;
            return;
        }
        let stands = window.number() == self.signal.number();
        self.planes
            .lengthen(self.phase as usize, Word::copies(stands, 1));
        self.last = window.after(1);
        self.phase = phase_after::<S>(self.phase, 1);
    }

    // Takes the first bits of a word of 64, so many. Each ends the signal of a position, and these
    // positions stand in one frame, if frames begin at phase 0.
    fn push_word(&mut self, word: Word, count: u32)
        requires whole { length word ≡ 64 }
        requires few { count ≤ 64 }
        requires last { length self.old.last + 1 ≡ S.SIGNAL }
        requires within { self.old.phase + count ≤ S.LEN }
        ensures { (before : List Bool) → StandsFor S.shape self.old before → StandsFor S.shape self.new (before ++ take count word) }
    {
        let stands = signals::<S>(&self.wrong, self.last, word).first(count);
        self.planes.lengthen(self.phase as usize, stands);
        self.last = self.last.shift_in(word.first(count));
        self.phase = phase_after::<S>(self.phase, count);
    }

    // Takes the next bits, at least one and so many at most, and tells how many.
    fn push_some(&mut self, bits: &Packed, from: usize, most: usize) -> usize
        requires some { 0 < most }
        requires within { from + most ≤ length bits.now.bits }
        ensures count { (0 < result) × (result ≤ most) }
        ensures taken { (before : List Bool) → StandsFor S.shape self.old before → StandsFor S.shape self.new (before ++ take result (drop from bits.now.bits)) }
    {
        if self.last.len() + 1 != S::SIGNAL {
            self.push(bits.read(from, 1).get(0));
            return 1;
        }
        // up to the frame's end, and up to the end of a word of 64 phases
        let most = most.min((S::LEN - self.phase) as usize);
        let count = most.min((64 - self.phase % 64) as usize);
        self.push_word(bits.read_padded(from, count as u32), count as u32);
        count
    }

    /// Takes so many of these bits, from a place on.
    pub fn push_all(&mut self, bits: &Packed, from: usize, count: usize)
        requires { from + count ≤ length bits.now.bits }
        ensures { (before : List Bool) → StandsFor S.shape self.old before → StandsFor S.shape self.new (before ++ take count (drop from bits.now.bits)) }
    {
        // a place fits, since a length does
        let _fits = bits.len();
        let mut done = 0;
        while done < count {
            done += self.push_some(bits, from + done, count - done);
        }
    }

    /// Forgets all bits.
    pub fn clear(&mut self)
        ensures { StandsFor S.shape self.new [] }
    {
        self.last = Word::empty();
        self.phase = 0;
        self.planes.clear();
    }

    /// The run of a phase: at how many of its positions, one after another and a frame apart, the
    /// alignment signal stands, from the newest on whose bits all have come; 3 where there are more,
    /// and 0 where no position of the phase has come.
    pub fn run_at(&self, phase: u32) -> u8
        requires { phase < S.LEN }
        ensures { (bits : List Bool) → StandsFor S.shape self.now bits → result ≡ run_of S.shape bits phase }
    {
        self.planes.run_at(phase as usize)
    }

    /// How many phases from this one on, one after another and so many at most, have runs below 3.
    pub fn below_three(&self, phase: u32, most: u32) -> u32
        requires { phase + most ≤ S.LEN }
        ensures count { result ≤ most }
        ensures below { (bits : List Bool) → StandsFor S.shape self.now bits → (i : ℕ) → i < result → (run_of S.shape bits (phase + i) == 3) ≡ false }
        ensures three { (bits : List Bool) → StandsFor S.shape self.now bits → result < most → run_of S.shape bits (phase + result) ≡ 3 }
    {
        self.planes.below_three(phase as usize, most as usize) as u32
    }
}
