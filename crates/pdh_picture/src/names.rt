//! Names in a picture.

ghost use Rattle.std.specs.Prelude.{◌≡◌, ◌++◌, OnOk, string_bytes};
ghost use Rattle.pdh_picture.specs.Names.{escaped, escaped_bytes, shown_name};

use std::alloc::AllocError;

// The longest name that is shown whole, and how much of a longer one is shown, in bytes.
const LONGEST: usize = 60;

const KEPT: usize = 57;

// Appends a byte of a name, as it stands in SVG: other ones than printable ASCII as a question mark.
fn push_byte(out: &mut String, byte: u8) -> Result<(), AllocError>
    ensures { OnOk result (string_bytes out.new ≡ string_bytes out.old ++ escaped byte) }
{
    match byte {
        b'&' => out.push_str("&amp;"),
        b'<' => out.push_str("&lt;"),
        b'>' => out.push_str("&gt;"),
        b' '..=b'~' => out.push(char::from(byte)),
        _ => out.push('?'),
    }
}

// Appends bytes of a name.
fn push_bytes(out: &mut String, bytes: &[u8]) -> Result<(), AllocError>
    ensures { OnOk result (string_bytes out.new ≡ string_bytes out.old ++ escaped_bytes bytes.now) }
{
    for byte in bytes {
        push_byte(out, *byte)?;
    }
    Ok(())
}

/// Appends the name of a file, as it stands in SVG. Of one with more than 60 bytes the last 57 are shown.
pub fn push_name(out: &mut String, name: &str) -> Result<(), AllocError>
    ensures { OnOk result (string_bytes out.new ≡ string_bytes out.old ++ shown_name name.now) }
{
    let bytes = name.as_bytes();
    if bytes.len() <= LONGEST {
        return push_bytes(out, bytes);
    }
    out.push_str("...")?;
    push_bytes(out, &bytes[bytes.len() - KEPT..])
}
