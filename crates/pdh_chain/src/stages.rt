//! The levels of the stages of chains: each has the numbers of its frame, and the rates of its line and of its tributaries.
//! How far a rate may be off, in parts per million, is this project's own.

use pdh_ds::{DS2_PLAN, DS3_PLAN, DS3C_PLAN};
use pdh_eframes::{E2_PLAN, E3_PLAN, E4_PLAN, SET_TRIBS};
use pdh_shape::Level;

/// Four streams of 2048 kbit/s in one of 8448 kbit/s (G.742).
pub const E2_LEVEL: Level = Level {
    len: E2_PLAN.len,
    tribs: SET_TRIBS,
    low: E2_PLAN.low,
    locked: E2_PLAN.copies == 0,
    rate: 8_448_000,
    per: 1,
    ppm: 30,
    trib_rate: 2_048_000,
    trib_per: 1,
    trib_ppm: 50,
};

/// Four streams of 8448 kbit/s in one of 34368 kbit/s (G.751).
pub const E3_LEVEL: Level = Level {
    len: E3_PLAN.len,
    tribs: SET_TRIBS,
    low: E3_PLAN.low,
    locked: E3_PLAN.copies == 0,
    rate: 34_368_000,
    per: 1,
    ppm: 20,
    trib_rate: E2_LEVEL.rate,
    trib_per: E2_LEVEL.per,
    trib_ppm: E2_LEVEL.ppm,
};

/// Four streams of 34368 kbit/s in one of 139264 kbit/s (G.751).
pub const E4_LEVEL: Level = Level {
    len: E4_PLAN.len,
    tribs: SET_TRIBS,
    low: E4_PLAN.low,
    locked: E4_PLAN.copies == 0,
    rate: 139_264_000,
    per: 1,
    ppm: 15,
    trib_rate: E3_LEVEL.rate,
    trib_per: E3_LEVEL.per,
    trib_ppm: E3_LEVEL.ppm,
};

/// Four streams of 1544 kbit/s in one of 6312 kbit/s: DS2 (ANSI T1.107).
pub const DS2_LEVEL: Level = Level {
    len: DS2_PLAN.len,
    tribs: DS2_PLAN.tribs,
    low: DS2_PLAN.low,
    locked: DS2_PLAN.copies == 0,
    rate: 6_312_000,
    per: 1,
    ppm: 30,
    trib_rate: 1_544_000,
    trib_per: 1,
    trib_ppm: 32,
};

/// Seven streams of 6312 kbit/s in one of 44736 kbit/s: DS3 with stuffing in the M13 way (ANSI T1.107).
pub const DS3_LEVEL: Level = Level {
    len: DS3_PLAN.len,
    tribs: DS3_PLAN.tribs,
    low: DS3_PLAN.low,
    locked: DS3_PLAN.copies == 0,
    rate: 44_736_000,
    per: 1,
    ppm: 20,
    trib_rate: DS2_LEVEL.rate,
    trib_per: DS2_LEVEL.per,
    trib_ppm: DS2_LEVEL.ppm,
};

/// Seven streams in one of 44736 kbit/s: DS3 with C-bit parity (ANSI T1.107). Each frame carries as many bits of each stream:
/// a stream's rate is to that of the line as these bits to those of the frame, and its clock is the line's.
pub const DS3_LOCKED_LEVEL: Level = Level {
    len: DS3C_PLAN.len,
    tribs: DS3C_PLAN.tribs,
    low: DS3C_PLAN.low,
    locked: DS3C_PLAN.copies == 0,
    trib_rate: DS3_LEVEL.rate * DS3C_PLAN.low as u128,
    trib_per: DS3C_PLAN.len as u128,
    trib_ppm: DS3_LEVEL.ppm,
    ..DS3_LEVEL
};

/// Four streams of 1544 kbit/s in one of those that a DS3 with C-bit parity carries: DS2 (ANSI T1.107).
pub const DS2_LOCKED_LEVEL: Level = Level {
    rate: DS3_LOCKED_LEVEL.trib_rate,
    per: DS3_LOCKED_LEVEL.trib_per,
    ppm: DS3_LOCKED_LEVEL.trib_ppm,
    ..DS2_LEVEL
};
