//! Candidates.

ghost use Rattle.std.specs.Prelude.{◌≡◌, ◌++◌, map, IfOk, OnOk};
ghost use Rattle.pdh_candidates.specs.Words.{candidate_of, candidates};

use crate::{Word, all_words};
use pdh_readings::BitOrder;
use std::alloc::{AllocError, Global};

/// What a recording may be, and the order in which its bits are read then.
#[derive(Clone, Copy, Debug, PartialEq, Eq)]
pub struct Candidate {
    /// What it may be.
    pub word: Word,
    /// The order.
    pub order: BitOrder,
}

// Appends a chain or a stream in each of these orders of bits.
fn push_orders(list: &mut Vec<Candidate>, word: Word, orders: &[BitOrder]) -> Result<(), AllocError>
    ensures { OnOk result (list.new.items ≡ list.old.items ++ map (candidate_of word) orders.now) }
{
    for order in orders {
        list.push(Candidate {
            word,
            order: *order,
        })?;
    }
    Ok(())
}

/// All candidates of these orders of bits, as they are tried: each chain or stream in each of the orders; or the refusal of
/// memory.
pub fn all_candidates(alloc: Global, orders: &[BitOrder]) -> Result<Vec<Candidate>, AllocError>
    ensures { IfOk result (λ list. list.items ≡ candidates orders.now) }
{
    let words = all_words();
    let mut list = Vec::new(alloc);
    for word in words.iter() {
        push_orders(&mut list, *word, orders)?;
    }
    Ok(list)
}
