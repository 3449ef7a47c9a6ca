//! A bit removed from words of 64.

ghost use Rattle.std.specs.Prelude.{◌≡◌, ◌+◌, ◌*◌, ◌<◌, ◌≤◌, ◌∷◌, [], ◌++◌, length, take, drop, vec_capacity};
ghost use Rattle.pdh_packed.specs.Words.{bits_of_words};

use crate::word::Word;

/// Takes the bits behind whole words, or the last of these where no bits are behind them.
pub(crate) fn take_last(words: &mut Vec<u64>, tail: Word) -> Word
    requires { 0 < length words.old.items + length tail }
    ensures bits { bits_of_words words.new.items ++ result ≡ bits_of_words words.old.items ++ tail }
    ensures size { (0 < length result) × (length result ≤ 64) }
    ensures capacity { vec_capacity words.new ≡ vec_capacity words.old }
{
    if tail.len() > 0 {
        return tail;
    }
    match words.pop() {
        Some(number) => Word::of(number, 64),
        None => tail,
    }
}

/// Removes the bit at a place of words, and appends another.
pub(crate) fn remove_bit(words: &mut [u64], place: usize, last: bool)
    requires { place < 64 * length words.old }
    ensures { bits_of_words words.new ≡ take place (bits_of_words words.old) ++ (drop (place + 1) (bits_of_words words.old) ++ last ∷ []) }
{
    let index = place / 64;
    let at = (place % 64) as u32;
    let kept = Word::of(words[index], 64).first(at);
    move_bits(words, index, last);
    words[index] = kept.join(Word::of(words[index], 64).after(at)).number();
}

// Removes the first bit of a word, and appends another behind the last word.
fn move_bits(words: &mut [u64], from: usize, last: bool)
    requires { from < length words.old }
    ensures { bits_of_words words.new ≡ take (64 * from) (bits_of_words words.old) ++ (drop (64 * from + 1) (bits_of_words words.old) ++ last ∷ []) }
{
    let end = words.len() - 1;
    for index in from..end {
        words[index] = (words[index] << 1).wrapping_add(words[index + 1] >> 63);
    }
    let mut word = Word::of(words[end], 64).after(1);
    word.push(last);
    words[end] = word.number();
}
