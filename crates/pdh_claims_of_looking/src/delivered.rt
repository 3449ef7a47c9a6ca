//! Of the delivered frames of a line.

ghost use Rattle.std.specs.Prelude.{◌≡◌, false, get_or, length};

use pdh_delivered::{CBits, Visitor};
use pdh_packed::Packed;

/// Where two frames in three say C-bit parity, a line hasn't it.
pub fn two_frames_in_three_are_enough() -> bool
    ensures { result ≡ false }
{
    CBits {
        frames: 3,
        saying: 2,
    }
    .have_parity()
}

/// A DS3 frame whose C11 and C12 are 0 doesn't say C-bit parity.
pub fn two_zeros_say_so_too(counts: &mut CBits, before: &Packed, frame: &Packed)
    requires whole { length frame.now.bits ≡ 4760 }
    requires c11 { get_or frame.now.bits 170 false ≡ false }
    requires c12 { get_or frame.now.bits 340 false ≡ false }
    ensures { counts.new.saying ≡ counts.old.saying }
{
    counts.visit(before, frame);
}
