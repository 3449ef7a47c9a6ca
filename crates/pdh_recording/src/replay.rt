//! A reader that was read ahead.

use crate::ahead::Ahead;
use std::io::{self, Read};

/// A reader, and what was read ahead of it.
#[derive(Drop)]
pub(crate) struct Replay<R: Read + Drop> {
    pub(crate) ahead: Ahead,
    pub(crate) reader: R,
}

impl<R: Read + Drop> Read for Replay<R> {
    ghost use Rattle.pdh_recording.specs.Given.{replayed};

    ghost remaining = { λ replay. replayed R.remaining replay };

    fn read(&mut self, buffer: &mut [u8]) -> io::Result<usize> {
        let count = self.ahead.give(buffer);
        if count > 0 || buffer.is_empty() {
            return Ok(count);
        }
        self.reader.read(buffer)
    }
}
