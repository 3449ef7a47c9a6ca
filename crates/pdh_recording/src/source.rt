//! What a recording is read from.

use std::io::{self, Read};

/// A file, or the standard input.
#[derive(Drop)]
pub enum Source<F: Read + Drop, I: Read + Drop> {
    /// A file.
    File(F),
    /// The standard input.
    Standard(I),
}

impl<F: Read + Drop, I: Read + Drop> Read for Source<F, I> {
    fn read(&mut self, buffer: &mut [u8]) -> io::Result<usize> {
        match self {
            Source::File(file) => file.read(buffer),
            Source::Standard(input) => input.read(buffer),
        }
    }
}
