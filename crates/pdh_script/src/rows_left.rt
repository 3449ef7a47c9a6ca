//! The rows of a script that aren't passed, as its line comes.

ghost use Rattle.std.specs.Prelude.{◌≡◌, ◌+◌, ◌<◌, ◌≤◌, ◌++◌, Bool, List, length, IfNone, IfSome, IsTrue, OnOk, OnSome};
ghost use Rattle.pdh_bits.specs.Bits.{bits_of, bits_of_byte};
ghost use Rattle.pdh_script.specs.Stored.{becomes, rows_in, steps_add};
ghost use Rattle.pdh_script.specs.Bending.{PutsBits, added_at, all_brought, becomes_at};
ghost use Rattle.pdh_script.specs.RowsLeft.{ArePassed, HasAdded, IsAhead, Remain};

use crate::step::{Edit, Effect, Step};
use pdh_edge::{Drain, Failed};
use pdh_packed::{Packed, Word};
use std::marker::Model;

/// Puts the bits of a byte.
fn put_byte<D: Drain>(byte: u8, drain: &mut D) -> Result<(), Failed>
    requires { IsTrue ((D.outputs drain.old).holds 0) }
    ensures { PutsBits D.Drain (bits_of_byte byte) drain.old drain.new result }
{
    let bits = Word::of(u64::from(byte), 8);
    for place in 0..bits.len() {
        drain.put(0, bits.get(place))?;
    }
    Ok(())
}

/// Puts the bits of bytes.
fn put_bytes<D: Drain>(bytes: &[u8], drain: &mut D) -> Result<(), Failed>
    requires { IsTrue ((D.outputs drain.old).holds 0) }
    ensures { PutsBits D.Drain (bits_of bytes.now) drain.old drain.new result }
{
    for byte in bytes {
        put_byte(*byte, drain)?;
    }
    Ok(())
}

/// Rows of a script, and the bytes that they add.
#[derive(Drop)]
pub struct RowsLeft<'a> {
    steps: &'a [Step],
    added: &'a [u8],
}

impl<'a> Model for RowsLeft<'a> {
    ghost use Rattle.std.specs.Prelude.{◌≤◌, List, length};
    ghost use Rattle.pdh_script.specs.Scripts.{Row};
    ghost use Rattle.pdh_script.specs.Stored.{rows_in, steps_add};

    ghost Value = { List Row };

    ghost view = { λ r. rows_in r.steps.now r.added.now };

    ghost invariant = { λ r. steps_add r.steps.now ≤ length r.added.now };
}

impl<'a> RowsLeft<'a> {
    /// The rows of these steps, which add the first of these bytes.
    pub fn new(steps: &'a [Step], added: &'a [u8]) -> RowsLeft<'a>
        requires { steps_add steps.now ≤ length added.now }
        ensures { result ≡ rows_in steps.now added.now }
    {
        RowsLeft { steps, added }
    }

    /// The same rows.
    pub fn same(&self) -> RowsLeft<'a>
        ensures { result ≡ self.now }
    {
        RowsLeft {
            steps: self.steps,
            added: self.added,
        }
    }

    /// Passes the first of them if it ends at a place, and answers the bytes that it adds there.
    fn pass_first(&mut self, place: u64) -> Option<&'a [u8]>
        requires { Remain place self.old }
        ensures passed { IfSome result (λ bytes. ArePassed place self.old self.new (bits_of bytes.now)) }
        ensures fewer { OnSome result (length self.new < length self.old) }
        ensures same { IfNone result (self.new ≡ self.old) }
        ensures ahead { IfNone result (IsAhead place self.old) }
    {
        let (step, rest) = self.steps.split_first()?;
        if step.end() > place {
            return None;
        }
        let (now, later) = self.added.split_at(step.edit.bytes());
        self.steps = rest;
        self.added = later;
        Some(now)
    }

    /// Puts what they add before the bit of a place, and passes those that end there.
    pub fn put_added<D: Drain>(&mut self, place: u64, drain: &mut D) -> Result<(), Failed>
        requires left { Remain place self.old }
        requires out { IsTrue ((D.outputs drain.old).holds 0) }
        ensures put { PutsBits D.Drain (added_at place self.old) drain.old drain.new result }
        ensures added { OnOk result (HasAdded place self.old self.new) }
    {
        while let Some(bytes) = self.pass_first(place) {
            put_bytes(bytes, drain)?;
        }
        Ok(())
    }

    /// Appends what they add before the bit of a place, for which there is room, and passes those that end there.
    pub fn append_added(&mut self, place: u64, into: &mut Packed)
        requires left { Remain place self.old }
        requires room { length into.old.bits + length (added_at place self.old) ≤ into.old.capacity }
        ensures grown { into.new ≡ record into.old { bits = into.old.bits ++ added_at place self.old } }
        ensures added { HasAdded place self.old self.new }
    {
        while let Some(bytes) = self.pass_first(place) {
            into.append_bytes(bytes);
        }
    }

    /// For how many bits from a place on, at most so many, the same becomes of them all: the first row changes them, or none
    /// does. No row adds bits before the first of them.
    pub fn alike(&self, place: u64, most: usize) -> usize
        requires left { Remain place self.now }
        requires ahead { IsAhead place self.now }
        requires some { 0 < most }
        ensures some { 0 < result }
        ensures most { result ≤ most }
        ensures left { Remain (place + result) self.now }
        ensures alike { (bits : List Bool) → length bits ≡ result → all_brought place self.now bits ≡ becomes_at place self.now bits }
    {
        let Some((step, _)) = self.steps.split_first() else {
            return most;
        };
        let at = u64::from(step.at);
        if at > place {
            return most.min((at - place) as usize);
        }
        most.min((step.end() - place) as usize)
    }

    /// What becomes of the bit of a place, where none of them adds before it.
    pub fn effect(&self, place: u64) -> Option<Effect>
        requires left { Remain place self.now }
        requires ahead { IsAhead place self.now }
        ensures { (bits : List Bool) → becomes result bits ≡ becomes_at place self.now bits }
    {
        let (step, _) = self.steps.split_first()?;
        match step.edit {
            Edit::Alter { effect, .. } if u64::from(step.at) <= place => Some(effect),
            _ => None,
        }
    }
}
