//! The bits of a tributary over many frames.

ghost use Rattle.std.specs.Prelude.{◌≡◌, ◌+◌, ◌<◌, ◌≤◌, length, IfOk};
ghost use Rattle.pdh_shape.specs.OwnNumbers.{store_size};
ghost use Rattle.pdh_shape.specs.Tributary.{reads_below};
ghost use Rattle.pdh_runs.specs.Pieces.{FillsColumn, rows};
ghost use Rattle.pdh_tx.specs.Passing.{carried_in};
ghost use Rattle.pdh_tx.specs.Gathered.{waiting_in};

use pdh_packed::Packed;
use pdh_runs::Layout;
use pdh_shape::Shape;
use std::alloc::{AllocError, Global};

/// What a tributary's store held, and behind it the bits that its child made for many frames.
#[derive(Drop)]
pub struct Queue {
    /// All these bits.
    pub bits: Packed,
    /// How many of them are carried.
    pub gone: usize,
    /// How many of those behind have come into the store.
    pub fill: usize,
}

impl Queue {
    /// An empty one with room for so many bits; or it finds no memory.
    pub fn open(alloc: Global, capacity: usize) -> Result<Queue, AllocError>
        ensures { IfOk result (λ queue. queue.bits.capacity ≡ capacity) }
    {
        Ok(Queue {
            bits: Packed::open(alloc, capacity)?,
            gone: 0,
            fill: 0,
        })
    }

    /// Puts the bits that a piece of a frame carries, of so many slots from `first` on, into their column, where so many come into
    /// the store in the piece.
    #[inline(always)]
    pub fn pass<S: Shape>(
        &mut self,
        trib: u8,
        more: bool,
        arriving: usize,
        layout: &Layout<S>,
        first: u32,
        len: usize,
        column: &mut Packed,
    )
        requires trib { trib < S.TRIBS }
        requires inside { first + len ≤ S.LEN }
        requires held { self.old.gone + self.old.fill + arriving ≤ length self.old.bits.bits }
        requires enough { carried_in S.shape trib more first len ≤ self.old.fill + arriving }
        requires room { S.LOW + 1 ≤ column.old.capacity }
        ensures bits { self.new.bits ≡ self.old.bits }
        ensures gone { self.new.gone ≡ self.old.gone + carried_in S.shape trib more first len }
        ensures fill { carried_in S.shape trib more first len + self.new.fill ≡ self.old.fill + arriving }
        ensures fills { FillsColumn S.shape trib more first len (waiting_in self.old) column.new.bits }
        ensures rows { length column.new.bits ≡ rows S.shape first len }
        ensures capacity { column.new.capacity ≡ column.old.capacity }
    {
        let carried = layout.fill_column_at(trib, more, first, len, &self.bits, self.gone, column);
        // the sums fit, since a length does
        let _fits = self.bits.len();
        self.gone += carried;
        self.fill = self.fill + arriving - carried;
    }
}
