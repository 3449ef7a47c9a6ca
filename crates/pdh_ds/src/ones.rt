//! The parity of bits.

ghost use Rattle.std.specs.Prelude.{◌≡◌};
ghost use Rattle.pdh_ds.specs.Parity.{odd_ones};

/// Whether the number of ones is odd.
pub fn parity(bits: &[bool]) -> bool
    ensures { result ≡ odd_ones bits.now }
{
    bits.iter().filter(|bit| **bit).count() % 2 == 1
}
