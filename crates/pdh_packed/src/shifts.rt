//! Words of 64 bits, shifted.

ghost use Rattle.std.specs.Prelude.{◌≡◌, ◌+◌, ◌-◌, ◌<◌, ◌≤◌, ◌++◌, length, take, drop};
ghost use Rattle.pdh_packed.specs.Places.{between_zeros};

use crate::word::Word;

impl Word {
    /// The 64 bits from a place on, of these bits and of 64 others that follow them.
    pub fn slide(&self, next: Word, place: u32) -> Word
        requires few { length self.now < 64 }
        requires begun { place ≤ length self.now }
        requires whole { length next ≡ 64 }
        ensures { result ≡ take 64 (drop place (self.now ++ next)) }
    {
        // a shift by 64 in two steps, where no bit of the front is left
        let left = self.len() - place;
        let front = (self.number() << 1) << (63 - left);
        Word::of(front.wrapping_add(next.number() >> left), 64)
    }

    /// These bits with others behind them, and without as many of the first.
    pub fn shift_in(&self, next: Word) -> Word
        ensures { result ≡ drop (length next) (self.now ++ next) }
    {
        let count = next.len();
        if count >= self.len() {
            return next.after(count - self.len());
        }
        self.after(count).join(next)
    }

    /// A word of 64 bits that has these from a place on, and zeros elsewhere.
    pub fn placed(&self, place: u32) -> Word
        requires { place + length self.now ≤ 64 }
        ensures { result ≡ between_zeros place self.now (64 - place - length self.now) }
    {
        let count = self.len();
        if count == 0 {
            return Word::copies(false, 64);
        }
        Word::of(self.number() << (64 - place - count), 64)
    }
}
