//! Recorded lines as a trait, and what a watch sees of one that takes its bits many at a time.

ghost use Rattle.std.specs.Prelude.{◌≡◌, ◌≤◌, ◌<◌, ◌+◌, ◌^◌, ◌++◌, ◌∷◌, [], Bool, List, length, take, drop, OnOk};
ghost use Rattle.pdh_events.specs.laws.QuietLaws.{IsQuiet};
ghost use Rattle.pdh_placed.specs.Lines.{LineMeaning};
ghost use Rattle.pdh_placed.specs.Places.{placed_events};

use crate::{PlacedWatch, Placing};
use pdh_packed::Packed;
use pdh_rx::NodeCounts;
use pdh_watch::Watch;
use std::alloc::AllocError;

/// Takes a recorded line: a bit by itself, where it notes the events that it brings, or many bits at a time that bring none.
pub trait Recorded: Drop {
    /// The state stands for this list of bits.
    ghost stands: { Self → List Bool → Type 0 };

    /// The events that one more bit brings, and what the line's nodes count, by any bits. No call changes it.
    ghost meaning: { Self → LineMeaning };

    /// Takes the next bit of the line, and notes the events that it brings, in order.
    fn push<W: Watch>(&mut self, bit: bool, watch: &mut W)
        requires stands { (line : List Bool) × stands self.old line }
        ensures stands { (line : List Bool) → stands self.old line → stands self.new (line ++ bit ∷ []) }
        ensures seen { (line : List Bool) → stands self.old line → W.saw watch.old ((meaning self.old).notes line bit) watch.new }
        ensures same { meaning self.new ≡ meaning self.old };

    /// Takes the next bits of the line from a place of a list on, none or more of those that bring no event, and answers how many.
    fn glide(&mut self, bits: &Packed, from: usize) -> usize
        requires begun { from ≤ length bits.now.bits }
        requires stands { (line : List Bool) × stands self.old line }
        ensures count { from + result ≤ length bits.now.bits }
        ensures stands { (line : List Bool) → stands self.old line → stands self.new (line ++ take result (drop from bits.now.bits)) }
        ensures quiet { (line : List Bool) → stands self.old line
            → IsQuiet (meaning self.old).notes line (take result (drop from bits.now.bits)) }
        ensures same { meaning self.new ≡ meaning self.old };

    /// Appends what each of the line's nodes counted, in the order of their paths. It fails only where it finds no memory.
    fn count_nodes(&self, counts: &mut Vec<NodeCounts>) -> Result<(), AllocError>
        ensures { OnOk result ((line : List Bool) → stands self.now line
            → counts.new.items ≡ counts.old.items ++ (meaning self.now).counted line) };

    /// Takes the next bits of the line, and shows a watch each event that they bring with its place. The watch tells the first
    /// bit's place, and at the end that of the bit behind the last one.
    fn take<W: PlacedWatch>(&mut self, bits: &Packed, watch: &mut Placing<W>)
        requires stands { (line : List Bool) × stands self.old line }
        requires places { watch.old.place + length bits.now.bits < 2 ^ 64 }
        ensures stands { (line : List Bool) → stands self.old line → stands self.new (line ++ bits.now.bits) }
        ensures seen { (line : List Bool) → stands self.old line
            → W.saw watch.old.watch (placed_events (meaning self.old).notes line watch.old.place bits.now.bits) watch.new.watch }
        ensures place { watch.new.place ≡ watch.old.place + length bits.now.bits }
        ensures same { meaning self.new ≡ meaning self.old }
    {
        let len = bits.len();
        let first = watch.place;
        let mut done = self.glide(bits, 0);
        while done < len {
            watch.place = first + done as u64;
            self.push(bits.get(done), watch);
            done += 1;
            done += self.glide(bits, done);
        }
        watch.place = first + len as u64;
    }
}
