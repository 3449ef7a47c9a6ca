//! Frames taken apart into a column for each tributary.

ghost use Rattle.std.specs.Prelude.{◌≡◌, ◌<◌, ◌≤◌, ◌+◌, ◌%◌, ◌==◌, true, length, replicate, All, IfOk};
ghost use Rattle.pdh_shape.specs.Tributary.{stripped};
ghost use Rattle.pdh_shape.specs.Payload.{payload_ones};
ghost use Rattle.pdh_runs.specs.Taking.{emptied, HasColumns, StandsInTurn};

use crate::layout::Layout;
use pdh_packed::Packed;
use pdh_shape::Shape;
use std::alloc::{AllocError, Global};
use std::marker::Model;
use std::mem;
use std::rc::Rc;

/// A frame, which is taken apart where the bits of a tributary are first read of it. Only `open` takes memory.
#[derive(Drop)]
pub struct Parts<S: Shape> {
    layout: Rc<Layout<S>>,
    frame: Packed,
    // the columns are those of this frame
    apart: bool,
    // for each tributary the bits that a frame gives it
    columns: Vec<Packed>,
    // the tributary that was read last, if one was
    last: Option<u8>,
    // what was read before any
    none: Packed,
    ones: Packed,
}

impl<S: Shape> Model for Parts<S> {
    ghost use Rattle.pdh_runs.specs.Taking.{Taken, IsTaken, read_bits};

    ghost Value = { Taken };

    ghost view = { λ p. record { frame = p.frame.bits; bits = read_bits p.last p.columns.items p.none.bits } };

    ghost invariant = { λ p. IsTaken S.shape p.frame p.apart p.columns.items p.last p.ones };
}

// So many equal bits.
fn equal_bits(alloc: Global, bit: bool, count: usize) -> Result<Packed, AllocError>
    ensures { IfOk result (λ bits. bits ≡ record { capacity = count; bits = replicate count bit }) }
{
    let mut bits = Packed::open(alloc, count)?;
    for _ in 0..count {
        bits.push(bit);
    }
    Ok(bits)
}

// So many empty lists with room for so many bits each.
fn empty_lists(alloc: Global, count: usize, capacity: usize) -> Result<Vec<Packed>, AllocError>
    ensures count { IfOk result (λ lists. length lists.items ≡ count) }
    ensures room { IfOk result (λ lists. All (λ list. list.capacity ≡ capacity) lists.items) }
{
    let mut lists = Vec::with_capacity(alloc, count)?;
    for _ in 0..count {
        lists.push(Packed::open(alloc, capacity)?)?;
    }
    Ok(lists)
}

// Forgets the bits of each list.
fn clear_all(lists: &mut [Packed])
    ensures { lists.new ≡ emptied lists.old }
{
    for index in 0..lists.len() {
        lists[index].clear();
    }
}

// Takes a frame apart: the column of each tributary has the bits that the frame gives it.
fn take_apart<S: Shape>(layout: &Layout<S>, frame: &Packed, columns: &mut [Packed])
    requires whole { length frame.now.bits ≡ S.LEN }
    requires tributaries { length columns.old ≡ S.TRIBS }
    requires room { All (λ column. S.LOW + 1 ≤ column.capacity) columns.old }
    ensures { HasColumns S.shape (λ j. stripped S.shape j frame.now.bits) columns.new }
{
    clear_all(columns);
    layout.fill_columns(frame, columns);
    for trib in 0..S::TRIBS {
        layout.strip(trib, frame, &mut columns[trib as usize]);
    }
}

impl<S: Shape> Parts<S> {
    /// A frame of zeros, for this layout; or it finds no memory.
    pub fn open(alloc: Global, layout: Rc<Layout<S>>) -> Result<Parts<S>, AllocError> {
        Ok(Parts {
            layout,
            frame: equal_bits(alloc, false, S::LEN as usize)?,
            apart: false,
            columns: empty_lists(alloc, usize::from(S::TRIBS), S::LOW as usize + 1)?,
            last: None,
            none: Packed::short(alloc),
            ones: equal_bits(alloc, true, S::LOW as usize)?,
        })
    }

    /// Takes this frame, and hands back the one before.
    pub fn exchange(&mut self, frame: &mut Packed)
        requires whole { length frame.old.bits ≡ S.LEN }
        requires room { frame.old.capacity ≡ S.LEN }
        ensures taken { self.new.frame ≡ frame.old.bits }
        ensures handed { frame.new ≡ record frame.old { bits = self.old.frame } }
    {
        mem::swap(&mut self.frame, frame);
        self.apart = false;
    }

    /// Reads the bits that the frame gives a tributary.
    pub fn read(&mut self, trib: u8)
        requires { trib < S.TRIBS }
        ensures frame { self.new.frame ≡ self.old.frame }
        ensures bits { self.new.bits ≡ stripped S.shape trib self.old.frame }
    {
        if !self.apart {
            take_apart(&self.layout, &self.frame, &mut self.columns);
            self.apart = true;
        }
        self.last = Some(trib);
    }

    /// The bits of the tributary that was read last.
    pub fn bits(&self) -> &Packed
        ensures { result.now.bits ≡ self.now.bits }
    {
        match self.last {
            Some(trib) => &self.columns[trib as usize],
            None => &self.none,
        }
    }

    /// The frame.
    pub fn frame(&self) -> &Packed
        ensures { result.now.bits ≡ self.now.frame }
    {
        &self.frame
    }

    /// Whether the payload of the frame holds an odd number of ones.
    pub fn is_odd(&self) -> bool
        ensures { result ≡ (payload_ones S.shape 0 self.now.frame % 2 == 1) }
    {
        self.layout.is_odd(&self.frame)
    }

    /// In which turn a bit stands of the tributary that was read last.
    pub fn turn(&self, trib: u8, place: usize) -> usize
        requires known { trib < S.TRIBS }
        requires read { self.now.bits ≡ stripped S.shape trib self.now.frame }
        requires inside { place < length self.now.bits }
        ensures { StandsInTurn S.shape trib self.now.frame place result }
    {
        let just = usize::from(self.layout.tributary(trib).just);
        if place < just {
            return place;
        }
        place + (S::LOW as usize + 1 - self.bits().len())
    }

    /// As many ones as a frame carries bits of a tributary at least.
    pub fn ones(&self) -> &Packed
        ensures { result.now.bits ≡ replicate S.LOW true }
    {
        &self.ones
    }
}
