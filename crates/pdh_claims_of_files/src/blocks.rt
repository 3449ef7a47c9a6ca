//! Claims on `pdh_blocks`.

ghost use Rattle.std.specs.Prelude.{◌≡◌, ℕ, ◌+◌, ◌<◌, ◌≤◌, Bool, true, false, Some, List, [], ◌∷◌, ◌++◌, length, slice_get, IsTrue, IfOk, OnOk, OnErr, IsErrOf};
ghost use Rattle.pdh_edge.specs.declared.port.FeedStop.TheVariants.{Ended};
ghost use Rattle.pdh_edge.specs.declared.shelf.Call.TheVariants.{Read};
ghost use Rattle.pdh_blocks.specs.Leaves.{Output};
ghost use Rattle.pdh_blocks.specs.State.{over, names, output_names};
ghost use Rattle.pdh_blocks.specs.Lists.{bits_in};

use pdh_blocks::ShelfPort;
use pdh_edge::{Drain, Failed, Feed, FeedStop, Port, Shelf};
use pdh_packed::Packed;

/// A leaf that has eight bits more hasn't ended.
pub fn ends_with_a_block<S: Shelf>(port: &mut ShelfPort<S>) -> Result<bool, FeedStop>
    requires held { IsTrue ((⟦<ShelfPort<S> as Feed>⟧.inputs port.old).holds 0) }
    requires left { (⟦<ShelfPort<S> as Feed>⟧.inputs port.old).left 0 ≡ 8 }
    ensures { IsErrOf result Ended → ⊥ }
{
    port.bit(0)
}

/// After a start that failed fewer outputs are taken as started than were called.
pub fn failed_start_taken_as_done<S: Shelf>(port: &mut ShelfPort<S>) -> Result<(), Failed>
    requires { ⟦<ShelfPort<S> as Port>⟧.fresh port.old }
    ensures { OnErr result (port.new.blocks.started < port.new.blocks.called) }
{
    port.start()
}

/// After the end the file of each output has all bits that were put to it but fewer than make a byte.
pub fn finish_leaves_out_the_last_output<S: Shelf>(port: &mut ShelfPort<S>) -> Result<(), Failed>
    requires { ⟦<ShelfPort<S> as Port>⟧.ready port.old }
    ensures { OnOk result ((k : ℕ) (name : List ℕ) (list : List Bool)
        → slice_get (output_names (over (S.state port.new.shelf) port.new.blocks)) k ≡ Some name
        → (⟦<ShelfPort<S> as Drain>⟧.outputs port.new).told k ≡ Some list
        → (rest : List Bool) × (list ≡ bits_in ((S.state port.new.shelf).told name) ++ rest) × (length rest < 8)) }
{
    port.finish()
}

/// A source that is named as the last that failed is the one that the shelf tells.
pub fn first_source_whatever_failed<S: Shelf>(port: &ShelfPort<S>) -> Option<u32>
    ensures { (i : ℕ) (name : List ℕ) → result ≡ Some i → i < length port.now.blocks.leaves.items
        → slice_get (names (over (S.state port.now.shelf) port.now.blocks)) i ≡ Some name
        → (S.state port.now.shelf).tells_name name ≡ true
        → (S.state port.now.shelf).last_failed ≡ Some (record { call = Read; name = name }) }
{
    port.failed_name()
}

/// No output has room for a whole block.
pub fn full_block_told_as_room<S: Shelf>(port: &ShelfPort<S>) -> bool
    requires { IsTrue ((⟦<ShelfPort<S> as Drain>⟧.outputs port.now).holds 0) }
    ensures { result ≡ false }
{
    port.has_room(0, 32768)
}

/// After bits were put no output has a whole block that waits.
pub fn full_block_waits<S: Shelf>(port: &mut ShelfPort<S>, bits: &Packed) -> Result<(), Failed>
    requires { IsTrue ((⟦<ShelfPort<S> as Drain>⟧.outputs port.old).holds 0) }
    ensures { (k : ℕ) (output : Output) → slice_get port.new.blocks.outputs.items k ≡ Some output
        → length output.waiting < 32768 }
{
    port.put_all(0, bits)
}

/// Bits that a leaf gives twice are its next ones, and then those behind them.
pub fn gives_the_same_bits_again<S: Shelf>(
    port: &mut ShelfPort<S>,
    first: &mut Packed,
    second: &mut Packed,
) -> Result<(), FeedStop>
    requires held { IsTrue ((⟦<ShelfPort<S> as Feed>⟧.inputs port.old).holds 0) }
    requires first { first.old ≡ record { capacity = 1; bits = [] } }
    requires second { second.old ≡ record { capacity = 1; bits = [] } }
    ensures { OnOk result ((rest : List Bool) → (⟦<ShelfPort<S> as Feed>⟧.inputs port.new).told 0 ≡ Some rest
        → (⟦<ShelfPort<S> as Feed>⟧.inputs port.old).told 0 ≡ Some (first.new.bits ++ (second.new.bits ++ rest))) }
{
    port.bits(0, 1, first)?;
    port.bits(0, 1, second)?;
    Ok(())
}

/// What was put to an empty list it has still after the end.
pub fn loses_the_bits_past_a_byte<S: Shelf>(
    port: &mut ShelfPort<S>,
    bits: &Packed,
) -> Result<(), Failed>
    requires held { IsTrue ((⟦<ShelfPort<S> as Drain>⟧.outputs port.old).holds 0) }
    requires empty { (⟦<ShelfPort<S> as Drain>⟧.outputs port.old).told 0 ≡ Some [] }
    ensures { OnOk result ((⟦<ShelfPort<S> as Drain>⟧.outputs port.new).told 0 ≡ Some bits.now.bits) }
{
    port.put_all(0, bits)?;
    port.finish()
}

/// The bit that a leaf gives is the next of those that it has.
pub fn reads_the_block_before<S: Shelf>(port: &mut ShelfPort<S>) -> Result<bool, FeedStop>
    requires { IsTrue ((⟦<ShelfPort<S> as Feed>⟧.inputs port.old).holds 0) }
    ensures { IfOk result (λ bit. (rest : List Bool) → (⟦<ShelfPort<S> as Feed>⟧.inputs port.new).told 0 ≡ Some rest
        → (⟦<ShelfPort<S> as Feed>⟧.inputs port.old).told 0 ≡ Some (bit ∷ rest)) }
{
    port.bit(0)
}

/// The files behind the one whose start was called last are as before.
pub fn starts_the_last_output_first<S: Shelf>(port: &mut ShelfPort<S>) -> Result<(), Failed>
    requires { ⟦<ShelfPort<S> as Port>⟧.fresh port.old }
    ensures { (k : ℕ) (name : List ℕ)
        → slice_get (output_names (over (S.state port.new.shelf) port.new.blocks)) k ≡ Some name
        → port.new.blocks.called ≤ k → (S.state port.new.shelf).told name ≡ (S.state port.old.shelf).told name }
{
    port.start()
}

/// A start that fails is counted.
pub fn write_fault_not_counted<S: Shelf>(port: &mut ShelfPort<S>) -> Result<(), Failed>
    requires fresh { ⟦<ShelfPort<S> as Port>⟧.fresh port.old }
    requires none { ⟦<ShelfPort<S> as Drain>⟧.drain_faults port.old ≡ 0 }
    ensures { OnErr result (⟦<ShelfPort<S> as Drain>⟧.drain_faults port.new ≡ 1) }
{
    port.start()
}
