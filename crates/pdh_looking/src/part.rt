//! The part of a recording that is looked at, in each order of bits.

ghost use Rattle.std.specs.Prelude.{◌≡◌, IfOk};
ghost use Rattle.pdh_readings.specs.declared.bit_order.BitOrder.{BitOrder};

use crate::reading::Reading;
use pdh_candidates::{Candidate, Trial};
use pdh_readings::BitOrder;
use std::alloc::{AllocError, Global};

/// A part of a recording in each order of bits.
#[derive(Drop)]
pub struct Part {
    msb: Reading,
    msb_inverted: Reading,
    lsb: Reading,
    lsb_inverted: Reading,
}

// An order of bits.
fn order_of(lsb_first: bool, inverted: bool) -> BitOrder
    ensures { result ≡ record { lsb_first = lsb_first; inverted = inverted } }
{
    BitOrder {
        lsb_first,
        inverted,
    }
}

impl Part {
    ghost use Rattle.pdh_looking.specs.Looking.{IsPart, in_order};

    /// So many bits of bytes from a bit on, or as many as there are, in each order; or it finds no memory.
    pub(crate) fn open(
        alloc: Global,
        bytes: &[u8],
        from: usize,
        bits: usize,
    ) -> Result<Part, AllocError>
        ensures { IfOk result (λ part. IsPart bytes.now from bits part) }
    {
        Ok(Part {
            msb: Reading::open(alloc, bytes, from, bits, order_of(false, false))?,
            msb_inverted: Reading::open(alloc, bytes, from, bits, order_of(false, true))?,
            lsb: Reading::open(alloc, bytes, from, bits, order_of(true, false))?,
            lsb_inverted: Reading::open(alloc, bytes, from, bits, order_of(true, true))?,
        })
    }

    /// The part in an order.
    pub(crate) fn read_in(&self, order: BitOrder) -> &Reading
        ensures { result.now ≡ in_order self.now order }
    {
        match (order.lsb_first, order.inverted) {
            (false, false) => &self.msb,
            (false, true) => &self.msb_inverted,
            (true, false) => &self.lsb,
            (true, true) => &self.lsb_inverted,
        }
    }
}

impl Trial for Part {
    ghost use Rattle.pdh_looking.specs.Looking.{is_met_in};

    ghost met = { is_met_in };

    fn meets(&self, alloc: Global, candidate: &Candidate) -> Result<bool, AllocError> {
        self.read_in(candidate.order).fits(alloc, candidate.word)
    }
}
