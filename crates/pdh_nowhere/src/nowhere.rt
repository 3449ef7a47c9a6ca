//! The drain that lets go of all bits.

ghost use Rattle.std.specs.Prelude.{◌^◌};
ghost use Rattle.std.proofs.Common.{refl, arith};
ghost use Rattle.pdh_edge.specs.Ports.{all_lists};

use pdh_edge::{Drain, Failed};
use pdh_packed::Packed;

/// Lets go of every bit that is put, so that no put fails.
#[derive(Drop)]
pub struct Nowhere;

impl Drain for Nowhere {
    ghost outputs = { λ n. all_lists };

    ghost drain_faults = { λ n. 0 };

    ghost drained = { λ a b. Unit {0} };

    ghost room = { λ n k. 2 ^ 64 };

    ghost drained_same = { λ a. tt };

    ghost drained_join = { λ a b c p q. tt };

    ghost drained_holds = { λ a b p. refl };

    ghost drained_counts = { λ a b p. Prim.omega arith };

    fn drain_faults(&self) -> u64 {
        0
    }

    fn put(&mut self, _leaf: u32, _bit: bool) -> Result<(), Failed> {
        Ok(())
    }

    fn put_all(&mut self, _leaf: u32, _bits: &Packed) -> Result<(), Failed> {
        Ok(())
    }

    fn is_deaf(&self) -> bool {
        true
    }

    fn has_room(&self, _leaf: u32, _bits: usize) -> bool {
        true
    }

    fn put_in_room(&mut self, _leaf: u32, _bits: &Packed) {}
}
