//! Claims of the phases of a search.

ghost use Rattle.std.specs.Prelude.{◌≡◌, ◌<◌, ◌≤◌, ◌+◌, Bool, List, [], ◌∷◌, ◌++◌, length, take, drop};
ghost use Rattle.pdh_phases.specs.Runs.{run_of};
ghost use Rattle.pdh_phases.specs.Keeping.{StandsFor};

use pdh_eframes::E2;
use pdh_packed::Packed;
use pdh_phases::{Phases, signal_number};
use pdh_shape::Shape;

/// After a bit the run of a phase is that of all bits, with the bit at its end: it is 3 where three signals stand.
pub fn confirms_after_two_signals<S: Shape>(phases: &mut Phases<S>, bit: bool, phase: u32) -> u8
    requires { phase < S.LEN }
    ensures { (bits : List Bool) → StandsFor S.shape phases.old bits → result ≡ run_of S.shape (bits ++ bit ∷ []) phase }
{
    phases.push(bit);
    phases.run_at(phase)
}

/// After many bits the run of a phase is that of all bits, with these at their end, each once.
pub fn takes_the_same_bits_again<S: Shape>(
    phases: &mut Phases<S>,
    bits: &Packed,
    from: usize,
    count: usize,
    phase: u32,
) -> u8
    requires within { from + count ≤ length bits.now.bits }
    requires phase { phase < S.LEN }
    ensures { (before : List Bool) → StandsFor S.shape phases.old before
        → result ≡ run_of S.shape (before ++ take count (drop from bits.now.bits)) phase }
{
    phases.push_all(bits, from, count);
    phases.run_at(phase)
}

/// A bit that follows many counts at the position that they leave it, with the bits that they leave before it.
pub fn keeps_older_bits<S: Shape>(
    phases: &mut Phases<S>,
    bits: &Packed,
    from: usize,
    count: usize,
    bit: bool,
    phase: u32,
) -> u8
    requires within { from + count ≤ length bits.now.bits }
    requires phase { phase < S.LEN }
    ensures { (before : List Bool) → StandsFor S.shape phases.old before
        → result ≡ run_of S.shape ((before ++ take count (drop from bits.now.bits)) ++ bit ∷ []) phase }
{
    phases.push_all(bits, from, count);
    phases.push(bit);
    phases.run_at(phase)
}

/// The alignment signal of the second-order multiplex is 1111010000.
#[tactic(auto, unfolding(pdh_phases::specs::Runs::signal_bits, pdh_eframes::specs::Sets::set_role))]
pub fn signal_bits_turned() -> u64
    ensures { result ≡ 0b1111010000 }
{
    signal_number::<E2>()
}
