//! Bits of a line, disturbed as they come.

ghost use Rattle.std.specs.Prelude.{◌≡◌, ◌+◌, ◌<◌, ◌≤◌, ◌^◌, ℕ, [], ◌∷◌, ◌++◌, length, take, drop, replicate, IsTrue, OnOk, OnErr};
ghost use Rattle.pdh_script.specs.Scripts.{FitIn};
ghost use Rattle.pdh_script.specs.Stored.{becomes};
ghost use Rattle.pdh_script.specs.Bending.{PutsBits, added_at, all_brought, brought};

use crate::rows_left::RowsLeft;
use crate::script::Script;
use crate::step::Effect;
use pdh_edge::{Drain, Failed};
use pdh_packed::Packed;
use std::marker::Model;

/// Puts what becomes of a bit.
fn put_altered<D: Drain>(effect: Option<Effect>, bit: bool, drain: &mut D) -> Result<(), Failed>
    requires { IsTrue ((D.outputs drain.old).holds 0) }
    ensures { PutsBits D.Drain (becomes effect (bit ∷ [])) drain.old drain.new result }
{
    match effect {
        None => drain.put(0, bit),
        Some(Effect::Flip) => drain.put(0, !bit),
        Some(Effect::Ones) => drain.put(0, true),
        Some(Effect::Zeros) => drain.put(0, false),
        Some(Effect::Drop) => Ok(()),
    }
}

/// Appends a bit so many times, for which there is room.
fn append_same(bit: bool, count: usize, into: &mut Packed)
    requires { length into.old.bits + count ≤ into.old.capacity }
    ensures { into.new ≡ record into.old { bits = into.old.bits ++ replicate count bit } }
{
    for _bit in 0..count {
        into.push(bit);
    }
}

/// Appends what becomes of bits, so many from a place on, for which there is room.
fn append_altered(
    effect: Option<Effect>,
    bits: &Packed,
    from: usize,
    count: usize,
    into: &mut Packed,
)
    requires within { from + count ≤ length bits.now.bits }
    requires room { length into.old.bits + length (becomes effect (take count (drop from bits.now.bits))) ≤ into.old.capacity }
    ensures { into.new ≡ record into.old { bits = into.old.bits ++ becomes effect (take count (drop from bits.now.bits)) } }
{
    match effect {
        None => into.append_from(bits, from, count),
        Some(Effect::Flip) => into.append_inverted(bits, from, count),
        Some(Effect::Ones) => append_same(true, count, into),
        Some(Effect::Zeros) => append_same(false, count, into),
        Some(Effect::Drop) => {}
    }
}

/// Disturbs a line by a script as its bits come. It takes no memory.
#[derive(Drop)]
pub struct Bender<'a> {
    script: &'a Script,
    // the rows that aren't passed
    left: RowsLeft<'a>,
    // how many bits of the line came
    place: u64,
}

impl<'a> Model for Bender<'a> {
    ghost use Rattle.pdh_script.specs.Bending.{Bending};
    ghost use Rattle.pdh_script.specs.RowsLeft.{AreLeft};

    // the script's rows, and how many bits of its line came
    ghost Value = { Bending };

    ghost view = { λ b. record { rows = b.script.now; place = b.place } };

    ghost invariant = { λ b. AreLeft b.left b.script.now b.place };
}

impl<'a> Bender<'a> {
    /// Disturbs a line by a script, and no bit of the line came.
    pub fn new(script: &'a Script) -> Bender<'a>
        requires { (bits : ℕ) × FitIn bits script.now }
        ensures { result ≡ record { rows = script.now; place = 0 } }
    {
        Bender {
            script,
            left: script.rows_left(),
            place: 0,
        }
    }

    /// Puts the bits that the next bit of the line brings to list 0: those that are added before it, and then what becomes of
    /// it. It fails only where the drain failed, and isn't used again then.
    pub fn bend<D: Drain>(&mut self, bit: bool, drain: &mut D) -> Result<(), Failed>
        requires few { self.old.place < 2 ^ 63 }
        requires out { IsTrue ((D.outputs drain.old).holds 0) }
        ensures put { PutsBits D.Drain (brought self.old.place self.old.rows bit) drain.old drain.new result }
        ensures next { OnOk result (self.new ≡ record self.old { place = self.old.place + 1 }) }
        ensures same { OnErr result (self.new ≡ self.old) }
    {
        let mut left = self.left.same();
        left.put_added(self.place, drain)?;
        put_altered(left.effect(self.place), bit, drain)?;
        self.left = left;
        self.place += 1;
        Ok(())
    }

    /// Appends the bits that these next bits of the line bring, for which there is room.
    pub fn bend_all(&mut self, bits: &Packed, into: &mut Packed)
        requires few { self.old.place + length bits.now.bits < 2 ^ 63 }
        requires room { length into.old.bits + length (all_brought self.old.place self.old.rows bits.now.bits) ≤ into.old.capacity }
        ensures grown { into.new ≡ record into.old { bits = into.old.bits ++ all_brought self.old.place self.old.rows bits.now.bits } }
        ensures next { self.new ≡ record self.old { place = self.old.place + length bits.now.bits } }
    {
        let mut done = 0;
        while done < bits.len() {
            let mut left = self.left.same();
            left.append_added(self.place, into);
            let count = left.alike(self.place, bits.len() - done);
            append_altered(left.effect(self.place), bits, done, count, into);
            self.left = left;
            self.place += count as u64;
            done += count;
        }
    }

    /// Puts the bits that are added behind the line to list 0, where all its bits came. It fails only where the drain failed,
    /// and isn't used again then.
    pub fn finish<D: Drain>(&self, drain: &mut D) -> Result<(), Failed>
        requires { IsTrue ((D.outputs drain.old).holds 0) }
        ensures { PutsBits D.Drain (added_at self.now.place self.now.rows) drain.old drain.new result }
    {
        let mut rest = self.left.same();
        rest.put_added(self.place, drain)
    }

    /// Appends the bits that are added behind the line, where all its bits came, and for which there is room.
    pub fn append_last(&self, into: &mut Packed)
        requires { length into.old.bits + length (added_at self.now.place self.now.rows) ≤ into.old.capacity }
        ensures { into.new ≡ record into.old { bits = into.old.bits ++ added_at self.now.place self.now.rows } }
    {
        let mut rest = self.left.same();
        rest.append_added(self.place, into);
    }
}
