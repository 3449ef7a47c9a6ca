//! The blocks of an extended form, and which of them are errored.

ghost use Rattle.std.specs.Prelude.{◌≡◌, ◌<◌, ◌≤◌, ◌+◌, ◌*◌, ◌++◌, ◌∷◌, ℕ, List, [], length};
ghost use Rattle.pdh_bits.specs.Bits.{with_bit};
ghost use Rattle.pdh_line.specs.Tracking.{Piece};
ghost use Rattle.pdh_line.specs.Tracking.Piece.{Gap, Delivered};
ghost use Rattle.pdh_ds1.specs.Receiving.{carried_word};
ghost use Rattle.pdh_ds1.specs.Machine.{Judges, after_superframe};

use crate::words::word_of;
use pdh_packed::Packed;

/// What is kept of the blocks of an extended form: each superframe is a block, which the next one of its alignment judges.
#[derive(Clone, Copy, Debug, PartialEq, Eq)]
pub struct BlockCounts {
    /// The word of the superframe before, in the same alignment.
    pub word: Option<u8>,
    /// How many blocks were judged. At `u64::MAX` the count stands.
    pub judged: u64,
    /// How many of them were errored. At `u64::MAX` the count stands.
    pub errored: u64,
}

/// A number with one more bit behind its own.
fn with_one_more(number: u8, bit: bool) -> u8
    requires { number < 32 }
    ensures number { result ≡ with_bit number bit }
    ensures few { result ≤ 2 * number + 1 }
{
    2 * number + if bit { 1 } else { 0 }
}

/// The word that an extended superframe carries.
#[tactic(auto, unfolding(crate::specs::Receiving::carried_word))]
pub fn carried(superframe: &Packed) -> u8
    requires { 4632 ≤ length superframe.now.bits }
    ensures { result ≡ carried_word superframe.now.bits }
{
    let one = with_one_more(0, superframe.get(193));
    let two = with_one_more(one, superframe.get(965));
    let three = with_one_more(two, superframe.get(1737));
    let four = with_one_more(three, superframe.get(2509));
    let five = with_one_more(four, superframe.get(3281));
    with_one_more(five, superframe.get(4053))
}

/// What is kept after a superframe that carries one word and has another.
fn after(before: &BlockCounts, carried: u8, word: u8) -> BlockCounts
    ensures { result ≡ after_superframe before.now carried word }
{
    match before.word {
        None => BlockCounts {
            word: Some(word),
            judged: before.judged,
            errored: before.errored,
        },
        Some(sent) => BlockCounts {
            word: Some(word),
            judged: before.judged.saturating_add(1),
            errored: before
                .errored
                .saturating_add(if carried == sent { 0 } else { 1 }),
        },
    }
}

impl BlockCounts {
    /// Of no superframe.
    pub fn none() -> BlockCounts
        ensures { Judges result [] }
    {
        BlockCounts {
            word: None,
            judged: 0,
            errored: 0,
        }
    }

    /// Takes the next superframe.
    pub fn superframe(&mut self, superframe: &Packed)
        requires { length superframe.now.bits ≡ 4632 }
        ensures { (pieces : List Piece) → Judges self.old pieces → Judges self.new (pieces ++ Delivered superframe.now.bits ∷ []) }
    {
        *self = after(self, carried(superframe), word_of(24, superframe, 0));
    }

    /// An alignment ends.
    pub fn end(&mut self)
        ensures { (pieces : List Piece) (n : ℕ) → Judges self.old pieces → Judges self.new (pieces ++ Gap n ∷ []) }
    {
        self.word = None;
    }
}
