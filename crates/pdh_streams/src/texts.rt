//! The lines that the commands of framed lines say.

ghost use Rattle.std.specs.Prelude.{◌≡◌, ◌≤◌, length};
ghost use Rattle.pdh_streams.specs.Texts.{counted_line as line_of_count, found_line as line_of_found};

use crate::codec::Found;
use pdh_answers::Done;
use pdh_text::Text;

/// Words and a number.
#[tactic(auto, using(pdh_text::proofs::Lengths::digits))]
pub(crate) fn counted_line(words: &str, number: u64) -> Done
    requires { length words.now ≤ 100 }
    ensures { result ≡ line_of_count words.now number }
{
    let mut text = Text::new();
    text.text(words);
    text.number(number);
    text.text("\n");
    Done::Line(text)
}

/// Words, and what was found in a line, with its blocks.
#[tactic(auto, using(pdh_text::proofs::Lengths::digits))]
pub(crate) fn found_line(words: &str, found: Found) -> Done
    requires { length words.now ≤ 100 }
    ensures { result ≡ line_of_found words.now found }
{
    let mut text = Text::new();
    text.text(words);
    text.number(found.delivered);
    text.text(" blocks ");
    text.number(found.blocks);
    text.text(" errored ");
    text.number(found.errored);
    text.text("\n");
    Done::Line(text)
}
