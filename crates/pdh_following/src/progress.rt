//! Who sees how far the following of a recording has come.

/// Sees how far the following of a recording has come.
pub trait Progress {
    /// So many bits were read, and so many events came.
    fn reached(&mut self, bits: u64, events: u64);
}
