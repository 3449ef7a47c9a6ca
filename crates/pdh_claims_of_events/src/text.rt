//! Claims on texts.

ghost use Rattle.std.specs.Prelude.{◌≡◌, ◌*◌, ◌++◌, ◌≤◌, codes, decimal, length};
ghost use Rattle.hex.specs.Hex.{encode_lower};

use pdh_shape::Path;
use pdh_text::Text;

/// A text that a number is appended to has its digits.
#[tactic(auto, using(pdh_text::proofs::Lengths::digits))]
pub fn digits_dropped(n: u64) -> Text
    ensures { result ≡ decimal n }
{
    let mut text = Text::new();
    text.number(n);
    text
}

/// A text that bytes are appended to has two lower-case hexadecimal digits of each.
pub fn hex_digits_dropped(bytes: &[u8]) -> Text
    requires { 2 * length bytes.now ≤ 320 }
    ensures { result ≡ encode_lower bytes.now }
{
    let mut text = Text::new();
    text.hex(bytes);
    text
}

/// The last step of a path is the node's own, and not that of its parent.
pub fn last_step_of_the_parent(first: u8, second: u8) -> Text
    ensures { result ≡ codes "/" ++ decimal first ++ codes "/" ++ decimal second }
{
    let mut text = Text::new();
    text.path(&Path {
        depth: 2,
        first,
        second,
    });
    text
}

/// A text that a part is appended to has the part.
pub fn part_dropped() -> Text
    ensures { result ≡ codes "bit" }
{
    let mut text = Text::new();
    text.text("bit");
    text
}
