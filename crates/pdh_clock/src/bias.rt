//! The clock offsets of made schedules.

ghost use Rattle.std.specs.Prelude.{◌≡◌, ◌≤◌, if◌then◌else◌};
ghost use Rattle.pdh_clock.specs.Made.{scale_of, offset_of};
ghost use Rattle.pdh_clock.specs.declared.bias.Offset.TheVariants.{Ahead, Behind};

/// Which clock offsets a made schedule has, each as many parts per million as the stream's level says. Where the top has no
/// stores, its tributaries have the top's offset, whatever is said here of others.
#[derive(Clone, Copy, Debug, PartialEq, Eq)]
pub enum Bias {
    /// No offset.
    Nominal,
    /// The leaves are fast, their nodes are slow, the nodes above these are fast.
    Fast,
    /// The leaves are slow, their nodes are fast, the nodes above these are slow.
    Slow,
    /// The top is fast; of the other streams, counted from 1 under their nodes, the odd ones are fast and the others slow.
    Mixed,
}

/// How the clock of a stream is off.
#[derive(Clone, Copy)]
pub enum Offset {
    Exact,
    Ahead,
    Behind,
}

impl Offset {
    /// The rate of a stream, as a multiple of a millionth of its nominal rate.
    pub fn scale(self, ppm: u32) -> u32
        requires { ppm ≤ 1000 }
        ensures { result ≡ scale_of self ppm }
    {
        match self {
            Offset::Exact => 1_000_000,
            Offset::Ahead => 1_000_000 + ppm,
            Offset::Behind => 1_000_000 - ppm,
        }
    }

    /// The offset in one case, and the other one in the other case.
    fn ahead_if(ahead: bool) -> Offset
        ensures { result ≡ (if ahead then Ahead else Behind) }
    {
        if ahead { Offset::Ahead } else { Offset::Behind }
    }
}

impl Bias {
    /// The offset of a stream, by how many levels of nodes there are from its own on down and by its number under its node.
    pub fn offset(self, height: usize, number: u8) -> Offset
        ensures { result ≡ offset_of self height number }
    {
        match self {
            Bias::Nominal => Offset::Exact,
            Bias::Fast => Offset::ahead_if(height % 2 == 0),
            Bias::Slow => Offset::ahead_if(height % 2 != 0),
            Bias::Mixed => Offset::ahead_if(number % 2 == 1),
        }
    }
}
