//! Why a recording wasn't read.

/// Why a recording wasn't read. Bytes and bits are counted from 0, from the beginning of the file.
#[derive(Clone, Copy, Debug, PartialEq, Eq)]
pub enum Fault {
    /// It doesn't exist.
    NotThere,
    /// The bytes from this one on can't be read.
    Unreadable {
        /// The byte.
        byte: u64,
    },
    /// It has no bits from this one on.
    NoBits {
        /// The bit.
        bit: u64,
    },
    /// It ended before the size that it had when it was opened.
    Shorter,
    /// Memory was wanting.
    OutOfMemory,
}
