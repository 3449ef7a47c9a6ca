//! A text, put together from parts, numbers, paths and bytes.

ghost use Rattle.std.specs.Prelude.{◌≡◌, ◌+◌, ◌*◌, ◌++◌, ◌≤◌, [], codes, length, decimal};
ghost use Rattle.hex.specs.Hex.{encode_lower};
ghost use Rattle.pdh_line.specs.Paths.{steps_of, path_text};

use arrayvec::ArrayString;
use itoa::Buffer;
use pdh_shape::Path;
use std::marker::Model;

/// A text of at most 320 bytes. It takes no memory.
#[derive(Drop)]
pub struct Text {
    held: ArrayString<320>,
}

impl Model for Text {
    ghost use Rattle.std.specs.Prelude.{List, ℕ};

    ghost Value = { List ℕ };

    ghost view = { λ t. t.held.bytes };
}

impl Text {
    /// The empty text.
    pub fn new() -> Text
        ensures { result ≡ [] }
    {
        Text {
            held: ArrayString::new(),
        }
    }

    /// Appends a part.
    pub fn text(&mut self, part: &str)
        requires { length self.old + length part.now ≤ 320 }
        ensures bytes { self.new ≡ self.old ++ part.now }
        ensures len { length self.new ≡ length self.old + length part.now }
    {
        self.held.push_str(part);
    }

    /// Appends the decimal digits of a number, at most 20.
    pub fn number(&mut self, n: u64)
        requires { length self.old + length (decimal n) ≤ 320 }
        ensures bytes { self.new ≡ self.old ++ decimal n }
        ensures len { length self.new ≤ length self.old + 20 }
    {
        let mut buffer = Buffer::new();
        self.held.push_str(buffer.format(n));
    }

    /// Appends a slash and a step of a path.
    fn step(&mut self, number: u8)
        requires { length self.old + 1 + length (decimal number) ≤ 320 }
        ensures bytes { self.new ≡ self.old ++ codes "/" ++ decimal number }
        ensures len { length self.new ≤ length self.old + 21 }
    {
        self.text("/");
        self.number(u64::from(number));
    }

    /// Appends the text of a node's path: `/`, `/A` or `/A/B`.
    pub fn path(&mut self, path: &Path)
        requires { length self.old + length (path_text (steps_of path.now)) ≤ 320 }
        ensures bytes { self.new ≡ self.old ++ path_text (steps_of path.now) }
        ensures len { length self.new ≤ length self.old + 42 }
    {
        match path.depth {
            0 => self.text("/"),
            1 => self.step(path.first),
            _ => {
                self.step(path.first);
                self.step(path.second);
            }
        }
    }

    /// Appends some bytes in lower-case hexadecimal, two digits for each.
    pub fn hex(&mut self, bytes: &[u8])
        requires { length self.old + 2 * length bytes.now ≤ 320 }
        ensures bytes { self.new ≡ self.old ++ encode_lower bytes.now }
        ensures len { length self.new ≡ length self.old + 2 * length bytes.now }
    {
        let mut room = [0u8; 320];
        let digits = &mut room[..2 * bytes.len()];
        let Ok(()) = hex::encode_to_slice(bytes, digits) else {
            // There are two bytes of room for each byte, as the call wants.
            unreachable!();
        };
        let Ok(digits) = str::from_utf8(digits) else {
            // Hexadecimal digits are ASCII.
            unreachable!();
        };
        self.held.push_str(digits);
    }

    /// The bytes of the text.
    pub fn bytes(&self) -> &[u8]
        ensures { result.now ≡ self.now }
    {
        self.held.as_str().as_bytes()
    }
}
