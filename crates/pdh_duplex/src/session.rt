//! What is counted in a session of two terminals.

use std::alloc::AllocError;

/// What both ends counted at the tops of their receivers.
#[derive(Clone, Copy, Debug, PartialEq, Eq)]
pub struct Session {
    /// The frames that west delivered.
    pub west_frames: u64,
    /// The frames that east delivered.
    pub east_frames: u64,
    /// How often an alarm began in what west received.
    pub west_alarms: u64,
    /// How often an alarm began in what east received.
    pub east_alarms: u64,
    /// The far end block errors that west was told.
    pub west_febe: u64,
    /// The far end block errors that east was told.
    pub east_febe: u64,
    /// In how many ticks the parity of a frame was wrong that west received.
    pub west_errors: u64,
    /// In how many ticks the parity of a frame was wrong that east received.
    pub east_errors: u64,
}

/// How a session ended, and the watches of both ends.
#[derive(Drop)]
pub struct Duplex<W: Drop, E: Drop> {
    /// What was counted; or memory was wanting, before the first bit.
    pub session: Result<Session, AllocError>,
    /// West's watch.
    pub west: W,
    /// East's watch.
    pub east: E,
}
