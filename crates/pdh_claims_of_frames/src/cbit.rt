//! What callers may rely on of the fields of C bits and of the codes of the far end alarm and control channel.

ghost use Rattle.std.specs.Prelude.{◌≡◌, ◌<◌, ℕ, Bool, true, false, List, [], ◌∷◌, ◌++◌, Some};
ghost use Rattle.std.specs.List.{repeat};
ghost use Rattle.pdh_cbit.specs.Channel.{HasSent, HasReceived};
ghost use Rattle.pdh_cbit.specs.Feac.{word_of, word_earlier, EndsInTen};
ghost use Rattle.pdh_cbit.specs.Fields.{IsInRange};

use pdh_cbit::{FeacReceiver, FeacSender, Fields, answered_codes};

/// To a receiver that has taken no bit all bits before the first were zeros.
#[tactic(auto, unfolding(pdh_cbit::specs::Channel::latest_first))]
pub fn a_word_before_the_first_bit() -> FeacReceiver
    ensures { result.register ≡ 0 }
{
    FeacReceiver::new()
}

/// No code is answered at a bit that ends its eleventh word in a row.
pub fn answers_again_at_the_eleventh_word(receiver: &mut FeacReceiver, bit: bool) -> Option<u8>
    ensures { (bits : List Bool) (code : ℕ) → HasReceived receiver.old bits → EndsInTen (word_earlier (bits ++ bit ∷ [])) code → result ≡ Some code → ⊥ }
{
    answered_codes();
    receiver.push(bit)
}

/// Where a code is answered its whole word has come ten times in a row.
pub fn answers_at_nine_words(receiver: &mut FeacReceiver, bit: bool) -> Option<u8>
    ensures { (bits : List Bool) (code : ℕ) → HasReceived receiver.old bits → result ≡ Some code
        → (earlier : List Bool) × (bits ++ bit ∷ [] ≡ earlier ++ repeat 10 (word_of code)) }
{
    answered_codes();
    receiver.push(bit)
}

/// A code is answered where its tenth word in a row ends.
pub fn compares_fifteen_bits_back(receiver: &mut FeacReceiver, bit: bool) -> Option<u8>
    ensures { (bits : List Bool) (code : ℕ) → HasReceived receiver.old bits → code < 64 → EndsInTen (bits ++ bit ∷ []) code
        → ¬ EndsInTen (word_earlier (bits ++ bit ∷ [])) code → result ≡ Some code }
{
    answered_codes();
    receiver.push(bit)
}

/// Of the six bits of a code the most significant is sent first, behind eight ones and a zero.
pub fn least_significant_bit_first(sender: &mut FeacSender) -> bool
    requires code { sender.old.code ≡ 32 }
    requires sent { HasSent sender.old 9 }
    ensures { result ≡ true }
{
    sender.next()
}

/// Fields that are written are read again.
pub fn loses_a_bit_of_the_rest(fields: &Fields) -> Fields
    requires { IsInRange fields.now }
    ensures { result ≡ fields.now }
{
    Fields::read(fields.write())
}

/// C31 is a bit of path parity, and none of the far end block error.
pub fn path_and_block_error_swapped() -> Fields
    ensures path { result.path ≡ 4 }
    ensures febe { result.febe ≡ 0 }
{
    let c31 = 1 << 14;
    Fields::read(c31)
}

/// The sixteenth bit of a word is a zero.
pub fn word_of_fifteen_bits(sender: &mut FeacSender) -> bool
    requires { HasSent sender.old 14 }
    ensures { result ≡ false }
{
    sender.next();
    sender.next()
}
