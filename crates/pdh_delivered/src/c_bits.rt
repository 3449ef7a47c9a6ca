//! The C bits of DS3 frames.

ghost use Rattle.std.specs.Prelude.{◌≡◌, ◌<◌, length, IfOk};
ghost use Rattle.pdh_delivered.specs.CBits.{with_frame, says_c_bit_parity, c_bits_in, have_c_bit_parity, fixed_c_bits};

use crate::{Visitor, each_frame};
use pdh_ds::Ds3;
use pdh_packed::Packed;
use std::alloc::{AllocError, Global};

// The slots of the C bits that are 1 where there is C-bit parity (ANSI T1.107): C11 and C12, and all three of the second, the
// sixth and the seventh subframe.
const FIXED: [u16; 11] = [
    170, 340, 850, 1020, 1190, 3570, 3740, 3910, 4250, 4420, 4590,
];

/// How many DS3 frames were delivered, and how many of them say C-bit parity. At `u64::MAX` a count stands.
#[derive(Clone, Copy, Debug, PartialEq, Eq, Drop)]
pub struct CBits {
    /// All.
    pub frames: u64,
    /// Those in which at most one of the fixed C bits is 0.
    pub saying: u64,
}

// Whether a DS3 frame says C-bit parity.
fn says_parity(frame: &Packed) -> bool
    requires { length frame.now.bits ≡ 4760 }
    ensures { result ≡ says_c_bit_parity frame.now.bits }
{
    let mut zeros: u32 = 0;
    for slot in FIXED {
        if !frame.get(usize::from(slot)) {
            zeros += 1;
        }
    }
    zeros <= 1
}

impl Visitor<Ds3> for CBits {
    ghost use Rattle.pdh_delivered.specs.CBits.{with_frame};

    ghost shown = { with_frame };

    fn visit(&mut self, _before: &Packed, frame: &Packed) {
        self.frames = self.frames.saturating_add(1);
        if says_parity(frame) {
            self.saying = self.saying.saturating_add(1);
        }
    }
}

impl CBits {
    /// Whether they are of a line with C-bit parity: three frames in four say so, or more.
    pub fn have_parity(&self) -> bool
        ensures { result ≡ have_c_bit_parity self.now }
    {
        3 * u128::from(self.frames) <= 4 * u128::from(self.saying)
    }
}

/// Counts the delivered frames of a DS3 line, and those that say C-bit parity; or it finds no memory.
pub fn count_c_bits(alloc: Global, line: &Packed) -> Result<CBits, AllocError>
    ensures { IfOk result (λ counts. counts ≡ c_bits_in line.now.bits) }
{
    let mut counts = CBits {
        frames: 0,
        saying: 0,
    };
    each_frame::<Ds3, CBits>(alloc, line, &mut counts)?;
    Ok(counts)
}
