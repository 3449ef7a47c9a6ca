//! AIS: where a run of ones on a line gets as long as AIS is, and where it ends.

ghost use Rattle.std.specs.Prelude.{◌≡◌, ◌<◌, ◌≤◌, ◌+◌, ◌-◌, Bool, false, List, [], ◌∷◌, ◌++◌, length, take, drop, get_or};
ghost use Rattle.pdh_events.specs.Telling.{tell, ais_kinds};
ghost use Rattle.pdh_events.specs.Keeping.{CountsOnes};
ghost use Rattle.pdh_events.specs.laws.QuietLaws.{IsCalm, AreOnes};

use crate::note::note_kind;
use pdh_packed::{Packed, Word};
use pdh_shape::Path;
use pdh_watch::{Kind, Watch};
use std::marker::Model;

/// Tells where AIS begins and ends on a line, by the ones that the line ends with.
#[derive(Drop)]
pub struct AisRun {
    // the length from which on a run of ones is AIS
    long: u32,
    // the ones that the line ends with, up to that length
    run: u32,
}

impl Model for AisRun {
    ghost use Rattle.std.specs.Prelude.{◌≤◌};
    ghost use Rattle.pdh_events.specs.Keeping.{OnesRun};

    ghost Value = { OnesRun };

    ghost view = { λ r. record { long = r.long; run = r.run } };

    ghost invariant = { λ r. r.run ≤ r.long };
}

// The word whose 64 bits are ones.
const ONES: u64 = u64::MAX;

// How many of so many bits from a place on are ones, one after another from the first on.
fn leading_ones(bits: &Packed, from: usize, count: usize) -> usize
    requires { from + count ≤ length bits.now.bits }
    ensures most { result ≤ count }
    ensures ones { AreOnes (take result (drop from bits.now.bits)) }
{
    // a place fits, since a length does
    let _fits = bits.len();
    let mut done = 0;
    while count - done >= 64 {
        let word = bits.read_whole(from + done);
        if word < ONES {
            return done + Word::of(word, 64).inverted().leading_zeros() as usize;
        }
        done += 64;
    }
    let last = bits.read(from + done, (count - done) as u32);
    done + last.inverted().leading_zeros() as usize
}

// How many of so many bits from a place on are ones, one after another from the last back.
fn trailing_ones(bits: &Packed, from: usize, count: usize) -> usize
    requires { from + count ≤ length bits.now.bits }
    ensures most { result ≤ count }
    ensures ones { AreOnes (drop (count - result) (take count (drop from bits.now.bits))) }
    ensures zero { result < count → get_or (take count (drop from bits.now.bits)) (count - 1 - result) false ≡ false }
{
    // a place fits, since a length does
    let _fits = bits.len();
    for ones in 0..count {
        if !bits.get(from + (count - 1 - ones)) {
            return ones;
        }
    }
    count
}

impl AisRun {
    /// For a line that has no bit yet, on which a run of so many ones is AIS.
    pub fn new(long: u32) -> AisRun
        ensures long { result.long ≡ long }
        ensures none { CountsOnes result [] }
    {
        AisRun { long, run: 0 }
    }

    /// Takes a bit of the line of the node at a path, and notes whether AIS begins or ends with it.
    pub fn note<W: Watch>(&mut self, bit: bool, path: Path, number: u64, watch: &mut W)
        ensures long { self.new.long ≡ self.old.long }
        ensures counts { (line : List Bool) → CountsOnes self.old line
            → CountsOnes self.new (line ++ bit ∷ []) }
        ensures seen { (line : List Bool) → CountsOnes self.old line
            → W.saw watch.old (tell path number (ais_kinds self.old.long line bit)) watch.new }
    {
        let was_long = self.run == self.long;
        if !bit {
            self.run = 0;
            if was_long {
                note_kind(Kind::AIS_OFF, path, number, watch);
            }
            return;
        }
        if was_long {
            return;
        }
        self.run += 1;
        let is_long = self.run == self.long;
        if is_long {
            note_kind(Kind::AIS_ON, path, number, watch);
        }
    }

    /// How many bits, of so many of a list from a place on, show nothing, one after another from the first on; it may answer
    /// fewer.
    pub fn calm(&self, bits: &Packed, from: usize, count: usize) -> usize
        requires { from + count ≤ length bits.now.bits }
        ensures most { result ≤ count }
        ensures calm { (line : List Bool) → CountsOnes self.now line → IsCalm self.now.long line (take result (drop from bits.now.bits)) }
    {
        if self.run == self.long {
            return leading_ones(bits, from, count);
        }
        count.min((self.long - self.run - 1) as usize)
    }

    /// Takes bits that show nothing, so many of a list from a place on.
    pub fn skip(&mut self, bits: &Packed, from: usize, count: usize)
        requires { from + count ≤ length bits.now.bits }
        ensures long { self.new.long ≡ self.old.long }
        ensures counts { (line : List Bool) → CountsOnes self.old line → IsCalm self.old.long line (take count (drop from bits.now.bits))
            → CountsOnes self.new (line ++ take count (drop from bits.now.bits)) }
    {
        if self.run == self.long {
            return;
        }
        let ones = trailing_ones(bits, from, count);
        if ones == count {
            self.run += ones.min((self.long - self.run) as usize) as u32;
            return;
        }
        self.run = ones.min(self.long as usize) as u32;
    }
}
