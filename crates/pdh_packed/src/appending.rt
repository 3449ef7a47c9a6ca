//! Words of 64 appended to others, for which there is room.

ghost use Rattle.std.specs.Prelude.{◌≡◌, ◌+◌, ◌-◌, ◌*◌, ◌<◌, ◌≤◌, ◌++◌, length, take, drop, vec_capacity};
ghost use Rattle.pdh_packed.specs.Words.{bits_of_words};

use crate::word::Word;

/// Appends words to others.
pub(crate) fn append_words(words: &mut Vec<u64>, others: &[u64])
    requires { length words.old.items + length others.now ≤ vec_capacity words.old }
    ensures items { words.new.items ≡ words.old.items ++ others.now }
    ensures capacity { vec_capacity words.new ≡ vec_capacity words.old }
{
    for word in others {
        words.push_reserved(*word);
    }
}

/// Appends words to others and to bits behind them that fill no word.
pub(crate) fn append_behind(words: &mut Vec<u64>, tail: &mut Word, others: &[u64])
    requires few { length tail.old < 64 }
    requires room { length words.old.items + length others.now ≤ vec_capacity words.old }
    ensures bits { bits_of_words words.new.items ++ tail.new ≡ (bits_of_words words.old.items ++ tail.old) ++ bits_of_words others.now }
    ensures count { length words.new.items ≡ length words.old.items + length others.now }
    ensures tail { length tail.new ≡ length tail.old }
    ensures capacity { vec_capacity words.new ≡ vec_capacity words.old }
{
    let mut rest = *tail;
    for word in others {
        words.push_reserved(rest.fill_whole(*word));
    }
    *tail = rest;
}

/// Appends the bits of words from a place of the first on, as far as they make whole words.
pub(crate) fn append_moved(words: &mut Vec<u64>, others: &[u64], place: usize)
    requires place { (0 < place) × (place < 64) }
    requires some { 0 < length others.now }
    requires room { length words.old.items + (length others.now - 1) ≤ vec_capacity words.old }
    ensures bits { bits_of_words words.new.items ≡ bits_of_words words.old.items ++ take (64 * (length others.now - 1)) (drop place (bits_of_words others.now)) }
    ensures count { length words.new.items ≡ length words.old.items + (length others.now - 1) }
    ensures capacity { vec_capacity words.new ≡ vec_capacity words.old }
{
    let mut front = others[0];
    for next in &others[1..] {
        words.push_reserved((front << place).wrapping_add(*next >> (64 - place)));
        front = *next;
    }
}
