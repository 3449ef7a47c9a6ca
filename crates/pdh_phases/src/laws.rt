//! What runs tell of frame alignment, for a shape whose frame begins with its alignment signal. Each
//! function does nothing: what it ensures is the law.
ghost use Rattle.std.specs.Prelude.{◌≡◌, ◌↔◌, ◌<◌, ◌≤◌, ◌+◌, ◌*◌, ◌%◌, ◌==◌, ℕ, Bool, false, List, length, take, drop};
ghost use Rattle.pdh_shape.specs.Frame.{is_right};
ghost use Rattle.pdh_line.specs.Tracking.{is_confirmed};
ghost use Rattle.pdh_phases.specs.Runs.{signal_at, run_of, IsNewest, StandsBack, stands_thrice};

use pdh_shape::Shape;

/// The run of a phase is the greatest number up to 3 of its positions, from the newest on and a frame
/// apart, at which the alignment signal stands; it is 0 where no position of the phase has come.
pub fn run_counts_signals<S: Shape>()
    requires { 0 < S.SIGNAL }
    ensures most { (bits : List Bool) (phase : ℕ) → run_of S.shape bits phase ≤ 3 }
    ensures counts { (bits : List Bool) (p count : ℕ) → IsNewest S.shape bits p → count ≤ 3 → (count ≤ run_of S.shape bits (p % S.LEN)) ↔ StandsBack S.shape bits p count }
    ensures none { (bits : List Bool) (phase : ℕ) → phase < S.LEN → length bits < phase + S.SIGNAL → run_of S.shape bits phase ≡ 0 }
{}

/// A frame is right exactly where the alignment signal stands at its first bit.
pub fn right_by_signal<S: Shape>()
    requires { 0 < S.SIGNAL }
    ensures { (bits : List Bool) (p : ℕ) → is_right S.shape (take S.LEN (drop p bits)) ≡ signal_at S.shape bits p }
{}

/// Position p is confirmed exactly where three whole frames have come from it on and the alignment
/// signal stands at p, p + LEN and p + 2·LEN.
pub fn confirmed_by_signals<S: Shape>()
    requires { 0 < S.SIGNAL }
    ensures whole { (bits : List Bool) (p : ℕ) → p + 3 * S.LEN ≤ length bits → is_confirmed S.shape (drop p bits) ≡ stands_thrice S.shape bits p }
    ensures part { (bits : List Bool) (p : ℕ) → length bits < p + 3 * S.LEN → is_confirmed S.shape (drop p bits) ≡ false }
{}

/// While p + 2·LEN is the newest position of its phase, the run of the phase is 3 exactly where the
/// alignment signal stands at p, p + LEN and p + 2·LEN.
pub fn three_by_run<S: Shape>()
    requires { 0 < S.SIGNAL }
    ensures { (bits : List Bool) (p : ℕ) → IsNewest S.shape bits (p + 2 * S.LEN) → (run_of S.shape bits (p % S.LEN) == 3) ≡ stands_thrice S.shape bits p }
{}

/// As the third frame from position p on ends, and until the next position of its phase has come, p
/// is confirmed exactly where the run of its phase is 3.
pub fn confirmed_by_run<S: Shape>()
    requires { 0 < S.SIGNAL }
    ensures { (bits : List Bool) (p : ℕ) → p + 3 * S.LEN ≤ length bits → length bits < p + 3 * S.LEN + S.SIGNAL → is_confirmed S.shape (drop p bits) ≡ (run_of S.shape bits (p % S.LEN) == 3) }
{}
