//! The bounds on the fill of a tributary's store within the tolerance, for every shape with control
//! copies. Each function does nothing: what it ensures is the law.
ghost use Rattle.std.specs.Prelude.{◌<◌, ◌≤◌, ℕ};
ghost use Rattle.pdh_line.specs.Sending.{fill_before, fill_arrived};
ghost use Rattle.pdh_line.specs.Tolerance.{IsWithin, least_at_start, most_at_start, least_inside, most_inside};

use pdh_shape::Shape;

/// At the start of every frame, and at the end of the last, a store holds from 29 to 66 bits.
pub fn fill_at_frame_start<S: Shape>()
    requires stores { 0 < S.COPIES }
    ensures least { (counts : ℕ → ℕ) (frames trib frame : ℕ) → IsWithin S.shape counts frames →
        trib < S.TRIBS → frame ≤ frames → least_at_start ≤ fill_before S.shape trib counts frame 0 }
    ensures most { (counts : ℕ → ℕ) (frames trib frame : ℕ) → IsWithin S.shape counts frames →
        trib < S.TRIBS → frame ≤ frames → fill_before S.shape trib counts frame 0 ≤ most_at_start }
{}

/// Before every slot of every frame, and at the frame's end, it holds from 8 to 89 bits.
pub fn fill_before_slot<S: Shape>()
    requires stores { 0 < S.COPIES }
    ensures least { (counts : ℕ → ℕ) (frames trib frame slot : ℕ) →
        IsWithin S.shape counts frames → trib < S.TRIBS → frame < frames → slot ≤ S.LEN →
        least_inside ≤ fill_before S.shape trib counts frame slot }
    ensures most { (counts : ℕ → ℕ) (frames trib frame slot : ℕ) →
        IsWithin S.shape counts frames → trib < S.TRIBS → frame < frames → slot ≤ S.LEN →
        fill_before S.shape trib counts frame slot ≤ most_inside }
{}

/// After the arrivals of every slot, before the slot is read, it holds from 8 to 89 bits.
pub fn fill_after_arrivals<S: Shape>()
    requires stores { 0 < S.COPIES }
    ensures least { (counts : ℕ → ℕ) (frames trib frame slot : ℕ) →
        IsWithin S.shape counts frames → trib < S.TRIBS → frame < frames → slot < S.LEN →
        least_inside ≤ fill_arrived S.shape trib counts frame slot }
    ensures most { (counts : ℕ → ℕ) (frames trib frame slot : ℕ) →
        IsWithin S.shape counts frames → trib < S.TRIBS → frame < frames → slot < S.LEN →
        fill_arrived S.shape trib counts frame slot ≤ most_inside }
{}
