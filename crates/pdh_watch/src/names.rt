//! The names of kinds in texts.

ghost use Rattle.std.specs.Prelude.{◌≡◌, ◌+◌, ◌++◌, ◌≤◌, ◌==◌, length, codes, bit_and, if◌then◌else◌};
ghost use Rattle.pdh_watch.specs.Monitors.{names_of};

use crate::Kind;
use bitflags::{Flag, Flags};
use pdh_text::Text;

// Appends a kind's name, behind a + where the text is longer than `from`, if the kind is in a set.
fn append_name(text: &mut Text, from: usize, set: Kind, flag: &Flag<Kind>)
    requires { length text.old + length flag.now.name.now + 1 ≤ 320 }
    ensures { text.new ≡ (if bit_and set.0 flag.now.value.0 == flag.now.value.0
        then (if length text.old == from then text.old else text.old ++ codes "+") ++ flag.now.name.now
        else text.old) }
{
    if !set.contains(flag.value) {
        return;
    }
    if text.bytes().len() != from {
        text.text("+");
    }
    text.text(flag.name);
}

// Appends the names of the kinds in a set, joined by +.
pub(crate) fn append_names(text: &mut Text, set: Kind)
    requires { length text.old ≤ 6 }
    ensures bytes { text.new ≡ text.old ++ names_of set }
    ensures len { length text.new ≤ length text.old + 85 }
{
    let from = text.bytes().len();
    let flags = Kind::flags();
    for i in 0..flags.len() {
        append_name(text, from, set, &flags[i]);
    }
}
