//! Scripts.

use crate::fault::ScriptFault;
use crate::passing::disturb;
use crate::reading::{StoredRows, read_rows};
use crate::rows_left::RowsLeft;
use crate::stop::ApplyStop;
use pdh_edge::Port;
use pdh_packed::Packed;
use std::alloc::Global;
use std::marker::Model;

/// Changes of the bits of a recorded line, in the order of their places.
#[derive(Drop)]
pub struct Script {
    rows: StoredRows,
}

/// The most bytes of a script's text.
pub const MOST_SCRIPT_BYTES: usize = 1_048_576;

impl Model for Script {
    ghost use Rattle.std.specs.Prelude.{List};
    ghost use Rattle.pdh_script.specs.Scripts.{Row};
    ghost use Rattle.pdh_script.specs.Stored.{AreSteps, rows_in};

    ghost Value = { List Row };

    ghost view = { λ s. rows_in s.rows.steps.items s.rows.added.items };

    ghost invariant = { λ s. AreSteps s.rows.steps.items s.rows.added.items };
}

impl Script {
    ghost use Rattle.std.specs.Prelude.{◌≡◌, ◌≤◌, ◌<◌, ◌^◌, Bool, List, length, IfOk, IfErr, OnOk, IsTrue};
    ghost use Rattle.pdh_script.specs.Scripts.{FitIn, bytes_added, disturbed};
    ghost use Rattle.pdh_script.specs.ScriptText.{Gives, script_of};
    ghost use Rattle.pdh_script.specs.Applying.{Applies, IsApplyStop, IsLeftReady, apply_reads, apply_writes};

    /// Reads a script's text for a line of so many bits. Faults are those of the first line that has one, and memory may
    /// run out besides.
    #[tactic(auto, unfolding(crate::specs::ScriptText::script_of))]
    pub fn read(alloc: Global, text: &[u8], bits: u64) -> Result<Script, ScriptFault>
        ensures rows { Gives (λ script. script) result (script_of bits text.now) }
        ensures fit { IfOk result (FitIn bits) }
    {
        if text.len() > MOST_SCRIPT_BYTES {
            return Err(ScriptFault::TooLong {
                len: text.len() as u64,
            });
        }
        let rows = read_rows(alloc, text, bits)?;
        Ok(Script { rows })
    }

    /// Its rows, none of which is passed.
    pub(crate) fn rows_left(&self) -> RowsLeft<'_>
        ensures { result ≡ self.now }
    {
        RowsLeft::new(&self.rows.steps, &self.rows.added)
    }

    /// How many bytes its rows add.
    pub fn added_bytes(&self) -> u64
        ensures value { result ≡ bytes_added self.now }
        ensures few { result ≤ 524288 }
    {
        self.rows.added.len() as u64
    }

    /// How many bits come of a line of so many, as the script was read for.
    pub fn bits_of(&self, bits: u64) -> u64
        requires fit { FitIn bits self.now }
        requires few { bits < 2 ^ 63 }
        ensures { (line : List Bool) → length line ≡ bits → result ≡ length (disturbed line self.now) }
    {
        let mut dropped = 0;
        for step in self.rows.steps.iter() {
            dropped += u64::from(step.edit.dropped());
        }
        bits - dropped + 8 * self.added_bytes()
    }

    /// Takes a line of so many bits, as the script was read for, from the port's list 0, and puts the disturbed line to its
    /// list 0; `buffer` holds bits on their way, as many at once as it has room for. The port is fresh, and is started first.
    /// Where the line has fewer bits or a call fails, what was put is a part of the disturbed line from its beginning on. No
    /// memory is taken.
    pub fn apply<P: Port>(
        &self,
        bits: u64,
        buffer: &mut Packed,
        port: &mut P,
    ) -> Result<(), ApplyStop>
        requires fit { FitIn bits self.now }
        requires room { 8 ≤ buffer.old.capacity }
        requires fresh { P.fresh port.old }
        requires line { IsTrue ((P.inputs port.old).holds 0) }
        requires out { IsTrue ((P.outputs port.old).holds 0) }
        ensures kept { P.kept port.old port.new }
        ensures reads { P.feed_faults port.new ≡ apply_reads result (P.feed_faults port.old) }
        ensures writes { P.drain_faults port.new ≡ apply_writes result (P.drain_faults port.old) }
        ensures ready { IsLeftReady (P.ready port.new) (P.refused port.new) result }
        ensures ok { OnOk result (Applies self.now bits
            (P.inputs port.old) (P.inputs port.new) (P.outputs port.old) (P.outputs port.new)) }
        ensures err { IfErr result (IsApplyStop self.now bits
            (P.inputs port.old) (P.inputs port.new) (P.outputs port.old) (P.outputs port.new)
            (P.feed_faults port.old) (P.feed_faults port.new)
            (P.drain_faults port.old) (P.drain_faults port.new)) }
    {
        port.start()?;
        disturb(&self.rows.steps, &self.rows.added, bits, buffer, port)
    }
}
