//! The laws of the answered codes. Each function does nothing: what it ensures is the law.
ghost use Rattle.std.specs.Prelude.{◌≡◌, ℕ, ◌↔◌, Bool, List, Some};
ghost use Rattle.pdh_cbit.specs.Feac.{answer_of, AnswersCode};

/// A code is answered at a bit exactly where the bits up to it end in ten words of the code, and
/// sixteen bits earlier they didn't.
pub fn answered_codes()
    ensures { (bits : List Bool) (code : ℕ) → (answer_of bits ≡ Some code) ↔ AnswersCode bits code }
{}
