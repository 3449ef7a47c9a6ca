//! What callers may rely on of scripts, and of what disturbs a line by them.

ghost use Rattle.std.specs.Prelude.{◌≡◌, ◌+◌, ◌≤◌, true, false, not, Bool, List, [], ◌∷◌, ◌++◌, map, length, drop, slice_range, None, IsTrue, IfSome, OnOk};
ghost use Rattle.pdh_edge.specs.Ports.{Takes, Puts, for_leaf};
ghost use Rattle.pdh_script.specs.Scripts.{Flip, Drop, Add, FitIn, row};
ghost use Rattle.pdh_script.specs.declared.stop.ApplyStop.TheVariants.{Ended};

use pdh_edge::{Drain, Failed, FeedStop, Port};
use pdh_packed::Packed;
use pdh_script::{ApplyStop, Bender, Script, ScriptFault};
use std::alloc::Global;

/// Three hexadecimal digits write no bytes.
#[tactic(auto, unfolding(pdh_script::specs::ScriptText::script_of))]
pub fn add_takes_an_odd_digit(alloc: Global) -> bool
    ensures { result ≡ false }
{
    match Script::read(alloc, b"add 0 ABC", 8) {
        Ok(_) => true,
        Err(_) => false,
    }
}

/// A comment counts as a line where the line behind it has a fault.
#[tactic(auto, unfolding(pdh_script::specs::ScriptText::script_of))]
pub fn lines_counted_without_comments(alloc: Global) -> Option<u32>
    ensures { IfSome result (λ line. line ≡ 2) }
{
    match Script::read(alloc, b"#\nflip", 8) {
        Err(ScriptFault::BadRow { line }) => Some(line),
        _ => None,
    }
}

/// A row that begins too early and ends too late isn't told as past the end.
#[tactic(auto, unfolding(pdh_script::specs::ScriptText::script_of))]
pub fn past_the_end_before_bad_row(alloc: Global) -> Option<u32>
    ensures { result ≡ None }
{
    match Script::read(alloc, b"flip 1 2\nflip 0 9", 4) {
        Err(ScriptFault::PastEnd { line }) => Some(line),
        _ => None,
    }
}

/// Of four bits of which a script leaves three out one comes.
pub fn counts_dropped_bits_too(script: &Script) -> u64
    requires rows { script.now ≡ row 1 (Drop 3) ∷ [] }
    requires fit { FitIn 4 script.now }
    ensures { result ≡ 1 }
{
    script.bits_of(4)
}

/// A line that is used up isn't told as a failed call.
pub fn ended_told_as_read_failed() -> ApplyStop
    ensures { result ≡ Ended }
{
    ApplyStop::from(FeedStop::Ended)
}

/// A call that failed isn't made again: where all bits came no fault was counted.
pub fn asks_again_after_a_failed_read<P: Port>(
    script: &Script,
    bits: u64,
    buffer: &mut Packed,
    port: &mut P,
) -> Result<(), ApplyStop>
    requires fit { FitIn bits script.now }
    requires room { 8 ≤ buffer.old.capacity }
    requires fresh { P.fresh port.old }
    requires line { IsTrue ((P.inputs port.old).holds 0) }
    requires out { IsTrue ((P.outputs port.old).holds 0) }
    ensures { OnOk result (P.feed_faults port.new ≡ P.feed_faults port.old) }
{
    script.apply(bits, buffer, port)?;
    Ok(())
}

/// The bits of a row that flips are inverted, and those before and behind it stay.
pub fn flip_sets_the_bits<P: Port>(
    script: &Script,
    bits: u64,
    buffer: &mut Packed,
    port: &mut P,
) -> Result<(), ApplyStop>
    requires rows { script.now ≡ row 2 (Flip 3) ∷ [] }
    requires fit { FitIn bits script.now }
    requires room { 8 ≤ buffer.old.capacity }
    requires fresh { P.fresh port.old }
    requires line { IsTrue ((P.inputs port.old).holds 0) }
    requires out { IsTrue ((P.outputs port.old).holds 0) }
    ensures { OnOk result ((line : List Bool) × Takes (for_leaf 0 line) (P.inputs port.old) (P.inputs port.new)
        × Puts (for_leaf 0 (slice_range line 0 2 ++ map not (slice_range line 2 5) ++ drop 5 line)) (P.outputs port.old) (P.outputs port.new)) }
{
    script.apply(bits, buffer, port)?;
    Ok(())
}

/// The bits of a row that drops are left out, and those before and behind it stay.
pub fn drop_takes_one_bit_fewer<P: Port>(
    script: &Script,
    bits: u64,
    buffer: &mut Packed,
    port: &mut P,
) -> Result<(), ApplyStop>
    requires rows { script.now ≡ row 2 (Drop 3) ∷ [] }
    requires fit { FitIn bits script.now }
    requires room { 8 ≤ buffer.old.capacity }
    requires fresh { P.fresh port.old }
    requires line { IsTrue ((P.inputs port.old).holds 0) }
    requires out { IsTrue ((P.outputs port.old).holds 0) }
    ensures { OnOk result ((line : List Bool) × Takes (for_leaf 0 line) (P.inputs port.old) (P.inputs port.new)
        × Puts (for_leaf 0 (slice_range line 0 2 ++ drop 5 line)) (P.outputs port.old) (P.outputs port.new)) }
{
    script.apply(bits, buffer, port)?;
    Ok(())
}

/// The bits of a byte that a row adds stand before the bit of its place, the most significant first.
pub fn add_behind_the_bit<P: Port>(
    script: &Script,
    bits: u64,
    buffer: &mut Packed,
    port: &mut P,
) -> Result<(), ApplyStop>
    requires rows { script.now ≡ row 2 (Add (3 ∷ [])) ∷ [] }
    requires fit { FitIn bits script.now }
    requires room { 8 ≤ buffer.old.capacity }
    requires fresh { P.fresh port.old }
    requires line { IsTrue ((P.inputs port.old).holds 0) }
    requires out { IsTrue ((P.outputs port.old).holds 0) }
    ensures { OnOk result ((line : List Bool) × Takes (for_leaf 0 line) (P.inputs port.old) (P.inputs port.new)
        × Puts (for_leaf 0 (slice_range line 0 2
        ++ (false ∷ false ∷ false ∷ false ∷ false ∷ false ∷ true ∷ true ∷ []) ++ drop 2 line)) (P.outputs port.old) (P.outputs port.new)) }
{
    script.apply(bits, buffer, port)?;
    Ok(())
}

/// Of a bit that a script leaves out nothing is put.
pub fn left_out_bit_is_put<D: Drain>(
    bender: &mut Bender,
    bit: bool,
    drain: &mut D,
) -> Result<(), Failed>
    requires bender { bender.old ≡ record { rows = row 7 (Drop 1) ∷ []; place = 7 } }
    requires out { IsTrue ((D.outputs drain.old).holds 0) }
    ensures { OnOk result (Puts (for_leaf 0 ([])) (D.outputs drain.old) (D.outputs drain.new)) }
{
    bender.bend(bit, drain)?;
    Ok(())
}

/// A row changes the bit of its place.
pub fn row_begins_one_bit_late<D: Drain>(
    bender: &mut Bender,
    bit: bool,
    drain: &mut D,
) -> Result<(), Failed>
    requires bender { bender.old ≡ record { rows = row 7 (Flip 1) ∷ []; place = 7 } }
    requires out { IsTrue ((D.outputs drain.old).holds 0) }
    ensures { OnOk result (Puts (for_leaf 0 (not bit ∷ [])) (D.outputs drain.old) (D.outputs drain.new)) }
{
    bender.bend(bit, drain)?;
    Ok(())
}

/// The bit of a place brings first the bits that are added there, the most significant of a byte first.
pub fn added_bits_in_reverse<D: Drain>(
    bender: &mut Bender,
    bit: bool,
    drain: &mut D,
) -> Result<(), Failed>
    requires bender { bender.old ≡ record { rows = row 7 (Add (3 ∷ [])) ∷ []; place = 7 } }
    requires out { IsTrue ((D.outputs drain.old).holds 0) }
    ensures { OnOk result (Puts (for_leaf 0 (false ∷ false ∷ false ∷ false ∷ false ∷ false ∷ true ∷ true ∷ bit ∷ [])) (D.outputs drain.old) (D.outputs drain.new)) }
{
    bender.bend(bit, drain)?;
    Ok(())
}

/// What is added at the end of a line is put behind its last bit.
pub fn nothing_added_behind_the_line<D: Drain>(bender: &Bender, drain: &mut D) -> Result<(), Failed>
    requires bender { bender.now ≡ record { rows = row 7 (Add (3 ∷ [])) ∷ []; place = 7 } }
    requires out { IsTrue ((D.outputs drain.old).holds 0) }
    ensures { OnOk result (Puts (for_leaf 0 (false ∷ false ∷ false ∷ false ∷ false ∷ false ∷ true ∷ true ∷ []))
        (D.outputs drain.old) (D.outputs drain.new)) }
{
    bender.finish(drain)?;
    Ok(())
}

/// Of bits that come at once, each is changed by the row of its place, and by no other.
pub fn bits_at_once_begin_at_the_first(bender: &mut Bender, bits: &Packed, into: &mut Packed)
    requires bender { bender.old ≡ record { rows = row 7 (Flip 1) ∷ []; place = 7 } }
    requires bits { bits.now.bits ≡ true ∷ false ∷ [] }
    requires room { length into.old.bits + 2 ≤ into.old.capacity }
    ensures { into.new.bits ≡ into.old.bits ++ false ∷ false ∷ [] }
{
    bender.bend_all(bits, into);
}
