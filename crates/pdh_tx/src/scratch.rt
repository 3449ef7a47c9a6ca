//! The lists in which pieces of a frame are put together. Multiplexers without stores use them too.

ghost use Rattle.std.specs.Prelude.{◌≡◌, ◌≤◌, IfOk, All, length};
ghost use Rattle.pdh_tx.specs.Scratch.{HasRoom};

use pdh_packed::Packed;
use pdh_shape::{STORE_SIZE, Shape};
use std::alloc::{AllocError, Global};

/// Room for the bits of a piece of a frame, before they stand in their order.
#[derive(Drop)]
pub struct Scratch {
    /// The bits of a tributary, those that the piece carries first.
    pub queue: Packed,
    /// For each tributary the bits of its payload slots.
    pub columns: Vec<Packed>,
    /// The bits of the slots that are no payload slots.
    pub overhead: Packed,
    /// The bits of the payload slots.
    pub payload: Packed,
}

// So many empty lists, each with room for so many bits.
fn columns(alloc: Global, count: u8, capacity: usize) -> Result<Vec<Packed>, AllocError>
    ensures count { IfOk result (λ columns. length columns.items ≡ count) }
    ensures room { IfOk result (λ columns.
        All (λ column. capacity ≤ column.capacity) columns.items) }
{
    let mut columns = Vec::with_capacity(alloc, usize::from(count))?;
    for _column in 0..count {
        columns.push(Packed::open(alloc, capacity)?)?;
    }
    Ok(columns)
}

impl Scratch {
    /// Room for the pieces of a shape's frames, or the refusal of memory for it.
    pub fn open<S: Shape>(alloc: Global) -> Result<Scratch, AllocError>
        ensures { IfOk result (HasRoom S.LEN S.TRIBS S.LOW) }
    {
        let len = S::LEN as usize;
        let each = S::LOW as usize + 1;
        Ok(Scratch {
            queue: Packed::open(alloc, len + STORE_SIZE)?,
            columns: columns(alloc, S::TRIBS, each)?,
            overhead: Packed::open(alloc, len)?,
            payload: Packed::open(alloc, usize::from(S::TRIBS) * each)?,
        })
    }
}
