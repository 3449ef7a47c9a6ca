//! Where something stands in a chain of multiplexers.

/// Names a multiplexer of a chain by the way from the top. Numbers of tributaries count from 1.
#[derive(Clone, Copy, Debug, PartialEq, Eq)]
pub struct Path {
    /// How many steps below the top it stands: 0 for the top itself, at most 2.
    pub depth: u8,
    /// The number of the top's tributary on the way, 0 where `depth` is 0.
    pub first: u8,
    /// The number of that one's tributary on the way, 0 where `depth` is below 2.
    pub second: u8,
}

/// The path of the top.
pub const TOP: Path = Path {
    depth: 0,
    first: 0,
    second: 0,
};

/// Where an event stands: in a slot of a frame of a multiplexer's line.
#[derive(Clone, Copy, Debug, PartialEq, Eq)]
pub struct Place {
    /// The multiplexer.
    pub path: Path,
    /// The number of the tributary that the event is about, counted from 1.
    pub trib: u8,
    /// The number of the frame, counted from 0.
    pub frame: u64,
    /// The number of the slot in the frame, counted from 0.
    pub slot: u32,
}

/// Describes the multiplexers of one depth of a chain: their frame and their rates.
#[derive(Clone, Copy, Debug, PartialEq, Eq)]
pub struct Level {
    /// The bits of a frame.
    pub len: u32,
    /// The number of tributaries.
    pub tribs: u8,
    /// The least number of bits that a frame carries for each tributary.
    pub low: u32,
    /// Whether each frame carries that number of bits and no store stands between. Such a multiplexer has no counts.
    pub locked: bool,
    /// The line's rate is `rate / per` bits a second.
    pub rate: u128,
    /// What `rate` is divided by.
    pub per: u128,
    /// How far the line's rate may be off, in parts per million.
    pub ppm: u32,
    /// A tributary's rate is `trib_rate / trib_per` bits a second.
    pub trib_rate: u128,
    /// What `trib_rate` is divided by.
    pub trib_per: u128,
    /// How far a tributary's rate may be off, in parts per million.
    pub trib_ppm: u32,
}
