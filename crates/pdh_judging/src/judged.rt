//! The numbers by which a line is judged, and the tests of them.

ghost use Rattle.std.specs.Prelude.{◌≡◌};
ghost use Rattle.pdh_judging.specs.Judged.{stands_at_top, stands_below, with_frame};

/// The frames of a line that are judged: those behind the first three of each alignment. At `u64::MAX` a count stands.
#[derive(Clone, Copy, Debug, PartialEq, Eq)]
pub struct Judged {
    /// All: those that are delivered, and each that completes a loss.
    pub frames: u64,
    /// Those in which every alignment slot has its bit.
    pub right: u64,
}

// How many right frames tell a shape at least.
const LEAST_RIGHT: u64 = 5;

impl Judged {
    /// Whether a line of so many bits, which is judged so by a shape of `len` slots, is one of that shape at the top of a chain:
    /// where enough frames are right, at least three in four, and these are at least an eighth of the line.
    pub fn at_top(&self, len: u32, bits: u64) -> bool
        ensures { result ≡ stands_at_top len bits self.now }
    {
        if self.right < LEAST_RIGHT {
            return false;
        }
        let right = u128::from(self.right);
        if 4 * right < 3 * u128::from(self.frames) {
            return false;
        }
        8 * right * u128::from(len) >= u128::from(bits)
    }

    /// Whether a line that is judged so is one of that shape below the top of a chain: where enough frames are right, and at least
    /// half of them.
    pub fn below(&self) -> bool
        ensures { result ≡ stands_below self.now }
    {
        if self.right < LEAST_RIGHT {
            return false;
        }
        2 * u128::from(self.right) >= u128::from(self.frames)
    }

    // With one frame more, which is right or not.
    pub(crate) fn with_one(self, right: bool) -> Judged
        ensures { result ≡ with_frame self right }
    {
        Judged {
            frames: self.frames.saturating_add(1),
            right: if right {
                self.right.saturating_add(1)
            } else {
                self.right
            },
        }
    }
}
