//! This project's own numbers, which no standard has. Each stands here once for the code, and in
//! `specs/OwnNumbers.antt` once for the definitions.

/// How many bits of each tributary are taken into its store before slot 0 of frame 0.
pub const LEAD: u32 = 48;

/// The fill of a store at a frame's start from which the frame carries an additional bit.
pub const THRESHOLD: u32 = 48;

/// How many bits a store holds at most.
pub const STORE_SIZE: usize = 96;

/// By how many bits the arrivals of a run of frames may pass what the run carries at least and at
/// most.
pub const ALLOWANCE: u32 = 18;

/// The most frames of a line, or of the top of a made schedule.
pub const MOST_FRAMES: u64 = 131_072;

/// The most frames of a drill, so that its line fits memory.
pub const MOST_DRILLED: u64 = 16_384;

/// The most bytes of a schedule's text.
pub const MOST_BYTES: usize = 33_554_432;
