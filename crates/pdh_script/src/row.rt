//! A row of a script, as its line says it.

ghost use Rattle.std.specs.Prelude.{◌≡◌, ◌≤◌, ◌*◌, length, take, option_map, IfSome};
ghost use Rattle.pdh_script.specs.Scripts.{Add};
ghost use Rattle.pdh_script.specs.RowText.{count_of, hex_of, change_of, row_of};
ghost use Rattle.pdh_script.specs.Stored.{change_by, change_found, count_added, most_row_bytes, row_found};

use crate::step::{Edit, Effect, Step};
use pdh_row_text::{first_word, number};

/// The most bytes that a row adds.
const MOST_ROW_BYTES: usize = 64;

/// A change, with room for the bytes that it adds.
#[derive(Clone, Copy)]
struct FoundChange {
    edit: Edit,
    bytes: [u8; MOST_ROW_BYTES],
}

/// A row in its form, with room for the bytes that it adds.
#[derive(Clone, Copy)]
pub struct FoundRow {
    pub step: Step,
    bytes: [u8; MOST_ROW_BYTES],
}

impl FoundRow {
    /// The bytes that it adds.
    pub fn added(&self) -> &[u8]
        requires { count_added self.now.step.edit ≤ most_row_bytes }
        ensures bytes { result.now ≡ take (count_added self.now.step.edit) self.now.bytes }
        ensures lens { length result.now ≡ count_added self.now.step.edit }
    {
        &self.bytes[..self.step.edit.bytes()]
    }
}

/// The change of as many bits as the word says, where it is a number other than 0.
fn altering(effect: Effect, word: &[u8]) -> Option<FoundChange>
    ensures change { option_map change_found result ≡ option_map (change_by effect) (count_of word.now) }
    ensures none { IfSome result (λ found. count_added found.edit ≡ 0) }
{
    let bits = number(word)?;
    (bits > 0).then_some(FoundChange {
        edit: Edit::Alter { effect, bits },
        bytes: [0; MOST_ROW_BYTES],
    })
}

/// The change that adds the bytes of a word, where this is 2 to 128 hexadecimal digits, two for each byte.
fn adding(word: &[u8]) -> Option<FoundChange>
    ensures change { option_map change_found result ≡ option_map Add (hex_of word.now) }
    ensures few { IfSome result (λ found. count_added found.edit ≤ most_row_bytes) }
    ensures lens { IfSome result (λ found. 2 * count_added found.edit ≤ length word.now) }
{
    if word.is_empty() || word.len() > 2 * MOST_ROW_BYTES {
        return None;
    }
    let count = word.len() / 2;
    let mut bytes = [0; MOST_ROW_BYTES];
    hex::decode_to_slice(word, &mut bytes[..count]).ok()?;
    Some(FoundChange {
        edit: Edit::Add {
            bytes: count as u32,
        },
        bytes,
    })
}

/// The change of that name, with what the last word says of it.
fn change(name: &[u8], word: &[u8]) -> Option<FoundChange>
    ensures change { option_map change_found result ≡ change_of name.now word.now }
    ensures few { IfSome result (λ found. count_added found.edit ≤ most_row_bytes) }
    ensures lens { IfSome result (λ found. 2 * count_added found.edit ≤ length word.now) }
{
    match name {
        b"flip" => altering(Effect::Flip, word),
        b"ones" => altering(Effect::Ones, word),
        b"zeros" => altering(Effect::Zeros, word),
        b"drop" => altering(Effect::Drop, word),
        b"add" => adding(word),
        _ => None,
    }
}

/// The row that a line is, where it has the form of one.
pub fn row(line: &[u8]) -> Option<FoundRow>
    ensures row { option_map row_found result ≡ row_of line.now }
    ensures few { IfSome result (λ found. count_added found.step.edit ≤ most_row_bytes) }
    ensures lens { IfSome result (λ found. 2 * count_added found.step.edit ≤ length line.now) }
{
    let (name, rest) = first_word(line);
    let (place, rest) = first_word(rest?);
    let (word, rest) = first_word(rest?);
    if rest.is_some() {
        return None;
    }
    let at = number(place)?;
    let change = change(name, word)?;
    Some(FoundRow {
        step: Step {
            at,
            edit: change.edit,
        },
        bytes: change.bytes,
    })
}
