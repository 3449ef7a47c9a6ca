//! The runs of all phases, 64 of which are read or lengthened at once.

// Runs of phases in planes of bits.
ghost use Rattle.std.specs.Prelude.{◌≡◌, length};

use pdh_packed::{BitArray, Word};
use std::alloc::{AllocError, Global};

/// The run of each phase, up to 3, in three planes of bits: the bit of a phase is 1 in the first
/// where its run is 1 at least, in the second where it is 2 at least, in the third where it is 3.
#[derive(Drop)]
pub struct Planes {
    once: BitArray,
    twice: BitArray,
    thrice: BitArray,
    ghost whole: { (length twice ≡ length once) × (length thrice ≡ length once) },
}

impl Planes {
    ghost use Rattle.std.specs.Prelude.{◌<◌, ◌≤◌, ◌+◌, ◌⊎◌, ℕ, false, get_or, IfOk};
    ghost use Rattle.pdh_phases.specs.Keeping.{Shows, longer};

    /// So many phases with runs of 0.
    pub fn open(alloc: Global, len: usize) -> Result<Planes, AllocError>
        ensures { IfOk result (λ planes. (length planes.once ≡ len) × ((phase : ℕ) → Shows planes phase 0)) }
    {
        let once = BitArray::open(alloc, len)?;
        let twice = BitArray::open(alloc, len)?;
        let thrice = BitArray::open(alloc, len)?;
        Ok(Planes {
            once,
            twice,
            thrice,
        })
    }

    /// The run of a phase.
    pub fn run_at(&self, phase: usize) -> u8
        requires { phase < length self.now.once }
        ensures { (run : ℕ) → run ≤ 3 → Shows self.now phase run → result ≡ run }
    {
        let least = u8::from(self.once.get(phase)) + u8::from(self.twice.get(phase));
        least + u8::from(self.thrice.get(phase))
    }

    /// Each phase from this one on gets one more position, at which the signal stands or doesn't.
    #[inline(always)]
    pub fn lengthen(&mut self, phase: usize, stands: Word)
        requires { phase + length stands ≤ length self.old.once }
        ensures whole { length self.new.once ≡ length self.old.once }
        ensures inside { (i run : ℕ) → i < length stands → Shows self.old (phase + i) run → Shows self.new (phase + i) (longer run (get_or stands i false)) }
        ensures outside { (k run : ℕ) → (k < phase) ⊎ (phase + length stands ≤ k) → Shows self.old k run → Shows self.new k run }
    {
        if stands.len() == 0 {
            return;
        }
        self.thrice.write_masked(phase, &self.twice, stands);
        self.twice.write_masked(phase, &self.once, stands);
        self.once.write(phase, stands);
    }

    /// Makes all runs 0.
    pub fn clear(&mut self)
        ensures whole { length self.new.once ≡ length self.old.once }
        ensures none { (phase : ℕ) → Shows self.new phase 0 }
    {
        self.once.fill(false);
        self.twice.fill(false);
        self.thrice.fill(false);
    }

    /// How many phases from this one on, one after another and so many at most, have runs below 3.
    pub fn below_three(&self, phase: usize, most: usize) -> usize
        requires { phase + most ≤ length self.now.once }
        ensures count { result ≤ most }
        ensures below { (i run : ℕ) → i < result → Shows self.now (phase + i) run → run < 3 }
        ensures three { (run : ℕ) → result < most → Shows self.now (phase + result) run → 3 ≤ run }
    {
        self.thrice.zeros(phase, most)
    }
}
