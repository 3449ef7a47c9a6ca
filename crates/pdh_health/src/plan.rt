//! What is known of a node before its first bit.

ghost use Rattle.std.specs.Prelude.{◌≡◌};
ghost use Rattle.pdh_health.specs.Plans.{latest_start, shortest_line};

use pdh_shape::Path;

/// How a node is aligned.
#[derive(Clone, Copy, Debug, PartialEq, Eq)]
pub enum Framing {
    /// By frames of so many bits, three right ones in a row.
    Frames(u32),
    /// By CRC-4 multiframes of 4,096 bits (ITU-T G.706, 4.2).
    Multiframes,
}

impl Framing {
    /// The first bit of a node's line with which a first alignment comes late: the recording didn't just begin in mid frame.
    pub fn latest_start(self) -> u64
        ensures { result ≡ latest_start self }
    {
        match self {
            Framing::Frames(len) => (4 * u64::from(len)).saturating_sub(1),
            Framing::Multiframes => 20_480,
        }
    }

    /// The fewest bits in which a line surely is aligned, if it can be.
    pub fn shortest_line(self) -> u64
        ensures { result ≡ shortest_line self }
    {
        match self {
            Framing::Frames(len) => 4 * u64::from(len),
            Framing::Multiframes => 20_480,
        }
    }
}

/// What is known of a node before its first bit.
#[derive(Clone, Copy, Debug, PartialEq, Eq)]
pub struct NodePlan {
    /// Where it stands.
    pub path: Path,
    /// How it is aligned.
    pub framing: Framing,
    /// The bits of a block whose errors it tells; 0 where it tells none.
    pub block: u32,
}
