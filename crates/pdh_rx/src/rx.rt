//! Receivers as a trait: what leaves and demultiplexers have in common.

ghost use Rattle.std.specs.Prelude.{◌≡◌, ◌≤◌, ◌+◌, ℕ, Bool, true, false, List, [], ◌∷◌, ◌++◌, length, take, drop, IfOk, OnOk, OnErr};
ghost use Rattle.pdh_events.specs.laws.QuietLaws.{IsQuiet};
ghost use Rattle.pdh_edge.specs.Ports.{HasCause};
ghost use Rattle.pdh_watch.specs.Seen.{SawPart};
ghost use Rattle.pdh_rx.specs.Meaning.{Meaning, IsSound, IsDeaf, HoldsAll, Gains, GainsPart, TakesBits, TakesPart};

use crate::NodeCounts;
use pdh_edge::{Drain, Failed};
use pdh_packed::Packed;
use pdh_watch::Watch;
use std::alloc::AllocError;

/// Takes a received line: a bit by itself, where it notes the events that it brings, or many bits at a
/// time that bring none.
pub trait Rx: Drop {
    ghost IS_LEAF: { Bool };

    /// Whether it puts its bits to a leaf itself.
    const IS_LEAF: bool;

    /// The state stands for this list of received bits.
    ghost stands: { Self → List Bool → Type 0 };

    /// Its path, its leaves, what each leaf has got by any received bits, the events that one more bit
    /// brings, how many frames are delivered, and what its nodes count. No call changes it.
    ghost meaning: { Self → Meaning };

    /// Room so told suffices to take so many bits at once, whatever they are.
    ghost fits: { Self → (ℕ → ℕ) → ℕ → Type 0 };

    /// Takes the next bit of the line, puts each bit that leaves gain by it, and notes the events that
    /// it brings, in order. It fails only where the drain failed, and isn't used again then.
    fn push<D: Drain, W: Watch>(
        &mut self,
        bit: bool,
        drain: &mut D,
        watch: &mut W,
    ) -> Result<(), Failed>
        requires stands { (line : List Bool) × stands self.old line }
        requires lists { HoldsAll (meaning self.old).leaves (D.outputs drain.old) }
        ensures stands { OnOk result ((line : List Bool) → stands self.old line
            → stands self.new (line ++ bit ∷ [])) }
        ensures put { OnOk result ((line : List Bool) → stands self.old line
            → Gains ((meaning self.old).got line) ((meaning self.old).got (line ++ bit ∷ []))
            (D.outputs drain.old) (D.outputs drain.new)) }
        ensures put_err { OnErr result ((line : List Bool) → stands self.old line
            → GainsPart ((meaning self.old).got line) ((meaning self.old).got (line ++ bit ∷ []))
            (D.outputs drain.old) (D.outputs drain.new)) }
        ensures seen { OnOk result ((line : List Bool) → stands self.old line
            → W.saw watch.old ((meaning self.old).notes line bit) watch.new) }
        ensures seen_err { OnErr result ((line : List Bool) → stands self.old line
            → SawPart W.saw watch.old ((meaning self.old).notes line bit) watch.new) }
        ensures cause { HasCause (D.drain_faults drain.old) (D.drain_faults drain.new) result }
        ensures drained { D.drained drain.old drain.new }
        ensures same { meaning self.new ≡ meaning self.old };

    /// How many frames of its own it has delivered. At `u64::MAX` the count stands; a leaf has none.
    fn frames(&self) -> u64
        ensures { (line : List Bool) → stands self.now line → result ≡ (meaning self.now).delivered line };

    /// Appends what each of its nodes counted: itself first, and then those below it in the order of tributaries. A leaf has
    /// none. It fails only where it finds no memory.
    fn count_nodes(&self, counts: &mut Vec<NodeCounts>) -> Result<(), AllocError>
        ensures { OnOk result ((line : List Bool) → stands self.now line
            → counts.new.items ≡ counts.old.items ++ (meaning self.now).counted line) };

    /// Takes the next bits of the line from a place on, none or more of those that bring no event, puts each bit that leaves
    /// gain by them, and answers how many. It fails only where the drain failed, and isn't used again then.
    fn glide<D: Drain>(
        &mut self,
        bits: &Packed,
        from: usize,
        drain: &mut D,
    ) -> Result<usize, Failed>
        requires begun { from ≤ length bits.now.bits }
        requires stands { (line : List Bool) × stands self.old line }
        requires lists { HoldsAll (meaning self.old).leaves (D.outputs drain.old) }
        ensures count { IfOk result (λ count. from + count ≤ length bits.now.bits) }
        ensures taken { IfOk result (λ count. TakesBits (meaning self.old) (take count (drop from bits.now.bits)) (stands self.old) (stands self.new)
            (D.outputs drain.old) (D.outputs drain.new)) }
        ensures quiet { IfOk result (λ count. (line : List Bool) → stands self.old line
            → IsQuiet (meaning self.old).notes line (take count (drop from bits.now.bits))) }
        ensures part { OnErr result (TakesPart (meaning self.old) (drop from bits.now.bits) (stands self.old)
            (D.outputs drain.old) (D.outputs drain.new)) }
        ensures cause { HasCause (D.drain_faults drain.old) (D.drain_faults drain.new) result }
        ensures drained { D.drained drain.old drain.new }
        ensures same { meaning self.new ≡ meaning self.old };

    /// Whether any bits may be kept from it: they bring no event, and the drain tells nothing of what it puts. A receiver that
    /// isn't a leaf answers that they may not.
    fn is_deaf<D: Drain>(&self, drain: &D) -> bool
        ensures { result ≡ true → IsDeaf (meaning self.now) (stands self.now) (D.outputs drain.now) };

    /// Whether the drain has room for all that so many bits bring, at once. A receiver that isn't a
    /// leaf answers that it hasn't.
    fn has_room<D: Drain>(&self, drain: &D, bits: usize) -> bool
        requires lists { HoldsAll (meaning self.now).leaves (D.outputs drain.now) }
        ensures { result ≡ true → fits self.now (D.room drain.now) bits };

    /// Takes bits for which there is room: they bring no event, and no put of them fails.
    fn take_in_room<D: Drain>(&mut self, bits: &Packed, drain: &mut D)
        requires stands { (line : List Bool) × stands self.old line }
        requires lists { HoldsAll (meaning self.old).leaves (D.outputs drain.old) }
        requires fits { fits self.old (D.room drain.old) (length bits.now.bits) }
        ensures taken { TakesBits (meaning self.old) bits.now.bits (stands self.old) (stands self.new)
            (D.outputs drain.old) (D.outputs drain.new) }
        ensures quiet { (line : List Bool) → stands self.old line
            → IsQuiet (meaning self.old).notes line bits.now.bits }
        ensures others { (k : ℕ) → (meaning self.old).leaves k ≡ false
            → D.room drain.new k ≡ D.room drain.old k }
        ensures faults { D.drain_faults drain.new ≡ D.drain_faults drain.old }
        ensures drained { D.drained drain.old drain.new }
        ensures same { meaning self.new ≡ meaning self.old };

    /// More received bits only add to what leaves have got, and only its leaves get bits.
    ghost sound: { (m : Self) → IsSound (meaning m) };

    /// Only the room of its own leaves counts, and fewer bits fit too.
    ghost fits_by: { (m : Self) (r r' : ℕ → ℕ) (n n' : ℕ)
        → ((k : ℕ) → (meaning m).leaves k ≡ true → r k ≡ r' k) → n' ≤ n → fits m r n → fits m r' n' };
}
