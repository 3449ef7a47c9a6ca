//! Words of 64 whose bits are inverted, or set to one value.

ghost use Rattle.std.specs.Prelude.{◌≡◌, not, map, length};
ghost use Rattle.pdh_packed.specs.Words.{bits_of_words};

use crate::word::Word;

/// Inverts each bit of words of 64.
pub(crate) fn invert_words(words: &mut [u64])
    ensures lens { length words.new ≡ length words.old }
    ensures bits { bits_of_words words.new ≡ map not (bits_of_words words.old) }
{
    for word in words.iter_mut() {
        *word = u64::MAX - *word;
    }
}

/// Sets each bit of words of 64.
pub(crate) fn fill_words(words: &mut [u64], bit: bool)
    ensures lens { length words.new ≡ length words.old }
    ensures bits { bits_of_words words.new ≡ map (λ old. bit) (bits_of_words words.old) }
{
    words.fill(Word::copies(bit, 64).number());
}
