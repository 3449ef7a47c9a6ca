//! The alignment signal, and at which of 64 positions it stands.

// The bits of the alignment signal, and where they stand in a word.
ghost use Rattle.std.specs.Prelude.{◌≡◌, ◌+◌, ◌++◌, length, IfOk};
ghost use Rattle.pdh_bits.specs.Bits.{number_of};
ghost use Rattle.pdh_phases.specs.Runs.{bit_in, signal_bits};
ghost use Rattle.pdh_phases.specs.Keeping.{signals_in, wrong_words};

use pdh_packed::Word;
use pdh_shape::{Role, Shape};
use std::alloc::{AllocError, Global};

// The bit that a slot of the alignment signal has; false for any other slot.
fn signal_bit(role: Role) -> bool
    ensures { result ≡ bit_in role }
{
    match role {
        Role::Align(bit) => bit,
        _ => false,
    }
}

/// The bits of the alignment signal.
pub fn signal_word<S: Shape>() -> Word
    ensures { result ≡ signal_bits S.shape }
{
    let mut bits = Word::empty();
    for slot in 0..S::SIGNAL {
        bits.push(signal_bit(S::role(slot)));
    }
    bits
}

/// For each slot of the alignment signal, 64 copies of the bit that is wrong there.
pub fn wrong_bits<S: Shape>(alloc: Global) -> Result<Vec<Word>, AllocError>
    ensures { IfOk result (λ wrong. wrong.items ≡ wrong_words (signal_bits S.shape)) }
{
    let signal = signal_word::<S>();
    let mut wrong = Vec::with_capacity(alloc, S::SIGNAL as usize)?;
    for slot in 0..S::SIGNAL {
        wrong.push_reserved(Word::copies(!signal.get(slot), 64));
    }
    Ok(wrong)
}

/// At which of 64 positions the alignment signal stands, where `last` and then `next` are the bits
/// from the first of them on.
pub fn signals<S: Shape>(wrong: &[Word], last: Word, next: Word) -> Word
    requires wrong { wrong.now ≡ wrong_words (signal_bits S.shape) }
    requires last { length last + 1 ≡ S.SIGNAL }
    requires next { length next ≡ 64 }
    ensures { result ≡ signals_in S.shape (last ++ next) }
{
    let mut stands = Word::copies(true, 64);
    for slot in 0..S::SIGNAL {
        // nothing stands where nothing has stood so far; to ask it once is enough
        if slot == 6 && stands.number() == 0 {
            return stands;
        }
        let bits = last.slide(next, slot);
        stands = stands.and(bits.xor(wrong[slot as usize]));
    }
    stands
}

/// The number that the bits of the alignment signal write, the first the most significant.
pub fn signal_number<S: Shape>() -> u64
    ensures { result ≡ number_of (signal_bits S.shape) }
{
    signal_word::<S>().number()
}
