//! A text made line by line in room that was taken before.

ghost use Rattle.std.specs.Prelude.{◌≡◌, ◌+◌, ◌≤◌, [], ◌++◌, length, IfOk};

use pdh_text::Text;
use std::alloc::{AllocError, Global};
use std::marker::Model;

/// Lines of a text, up to a capacity in bytes. Only `open` takes memory.
#[derive(Drop)]
pub struct Lines {
    text: Vec<u8>,
    capacity: usize,
}

impl Model for Lines {
    ghost use Rattle.std.specs.Prelude.{◌≤◌, vec_capacity};
    ghost use Rattle.pdh_show.specs.Texts.{BoundedText};

    ghost Value = { BoundedText };

    ghost view = { λ l. record { text = l.text.items; capacity = l.capacity } };

    ghost invariant = { λ l. l.capacity ≤ vec_capacity l.text };
}

impl Lines {
    /// No lines, with room for `capacity` bytes.
    pub fn open(alloc: Global, capacity: usize) -> Result<Lines, AllocError>
        ensures { IfOk result (λ lines. lines ≡ record { text = []; capacity = capacity }) }
    {
        let text = Vec::with_capacity(alloc, capacity)?;
        Ok(Lines { text, capacity })
    }

    /// Appends a line, for which there is room.
    pub fn append(&mut self, line: &Text)
        requires { length self.old.text + length line.now ≤ self.old.capacity }
        ensures { self.new ≡ record self.old { text = self.old.text ++ line.now } }
    {
        let _ = self.text.extend_from_slice(line.bytes());
    }

    /// The text of the lines.
    pub fn into_text(self) -> Vec<u8>
        ensures { result.items ≡ self.text }
    {
        let Lines { text, capacity: _ } = self;
        text
    }
}
