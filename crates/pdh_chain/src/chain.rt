//! The list of chains: the name and the levels of each, and what follows from its levels.

ghost use Rattle.std.specs.Prelude.{◌≡◌, ◌<◌, ◌≤◌, ◌*◌, All, length};
ghost use Rattle.pdh_nesting.specs.Chains.{top_len};
ghost use Rattle.pdh_levels.specs.Levels.{AreLevels};
ghost use Rattle.pdh_clock.specs.Made.{IsRated};
ghost use Rattle.pdh_shape.specs.declared.place.Level.{Level};
ghost use Rattle.pdh_chain.specs.Chains.{chains, name_of, shapes_of, frame_bytes_of, leaves_of, levels_of, delay_of};

use crate::stages::{
    DS2_LEVEL, DS2_LOCKED_LEVEL, DS3_LEVEL, DS3_LOCKED_LEVEL, E2_LEVEL, E3_LEVEL, E4_LEVEL,
};
use pdh_levels::leaf_count;
use pdh_shape::Level;

/// A chain of multiplexers, from its top to its leaves.
#[derive(Clone, Copy, Debug, PartialEq, Eq)]
pub enum Chain {
    /// Four streams of 2048 kbit/s in one of 8448 kbit/s (ITU-T G.742).
    E12,
    /// Four streams of 8448 kbit/s in one of 34368 kbit/s (ITU-T G.751).
    E23,
    /// Four streams of 34368 kbit/s in one of 139264 kbit/s (ITU-T G.751).
    E34,
    /// Sixteen streams of 2048 kbit/s in one of 34368 kbit/s, by way of four of 8448 kbit/s.
    E13,
    /// Sixteen streams of 8448 kbit/s in one of 139264 kbit/s, by way of four of 34368 kbit/s.
    E24,
    /// Sixty-four streams of 2048 kbit/s in one of 139264 kbit/s, by way of four of 34368 kbit/s and
    /// sixteen of 8448 kbit/s.
    E14,
    /// Four streams of 1544 kbit/s in one of 6312 kbit/s (ANSI T1.107).
    M12,
    /// Seven streams of 6312 kbit/s in one of 44736 kbit/s, by the M23 application (ANSI T1.107).
    M23,
    /// Twenty-eight streams of 1544 kbit/s in one of 44736 kbit/s, by way of seven of 6312 kbit/s.
    M13,
    /// Twenty-eight streams of 1544 kbit/s in one of 44736 kbit/s with C-bit parity, by way of seven that
    /// have the line's clock (ANSI T1.107).
    C13,
}

// The name and the levels of each chain.
fn listed(chain: Chain) -> (&'static str, &'static [Level])
    ensures name { result.0.now ≡ name_of chain }
    ensures levels { result.1.now ≡ levels_of chain }
{
    match chain {
        Chain::E12 => ("e12", &[E2_LEVEL]),
        Chain::E23 => ("e23", &[E3_LEVEL]),
        Chain::E34 => ("e34", &[E4_LEVEL]),
        Chain::E13 => ("e13", &[E3_LEVEL, E2_LEVEL]),
        Chain::E24 => ("e24", &[E4_LEVEL, E3_LEVEL]),
        Chain::E14 => ("e14", &[E4_LEVEL, E3_LEVEL, E2_LEVEL]),
        Chain::M12 => ("m12", &[DS2_LEVEL]),
        Chain::M23 => ("m23", &[DS3_LEVEL]),
        Chain::M13 => ("m13", &[DS3_LEVEL, DS2_LEVEL]),
        Chain::C13 => ("c13", &[DS3_LOCKED_LEVEL, DS2_LOCKED_LEVEL]),
    }
}

impl Chain {
    /// Its word on the command line and in texts.
    pub fn name(self) -> &'static str
        ensures value { result.now ≡ name_of self }
        ensures short { length result.now ≡ 3 }
    {
        listed(self).0
    }

    /// Its levels, from the top.
    pub fn levels(self) -> &'static [Level]
        ensures value { result.now ≡ levels_of self }
        ensures sound { AreLevels result.now }
        ensures rated { All IsRated result.now }
        ensures low { All (λ (level : Level). level.low < level.len) result.now }
    {
        listed(self).1
    }
}

/// All chains.
pub fn all_chains() -> [Chain; 10]
    ensures { result ≡ chains }
{
    [
        Chain::E12,
        Chain::E23,
        Chain::E34,
        Chain::E13,
        Chain::E24,
        Chain::E14,
        Chain::M12,
        Chain::M23,
        Chain::M13,
        Chain::C13,
    ]
}

/// By how many bits of a leaf what is received is behind what arrived at most, where every tributary is within the
/// tolerance.
pub fn delay(chain: Chain) -> u32
    ensures { result ≡ delay_of chain }
{
    pdh_levels::delay(chain.levels())
}

/// How many leaves a chain has.
pub fn leaves(chain: Chain) -> u32
    ensures value { result ≡ leaves_of chain }
    ensures some { 0 < result }
    ensures few { result ≤ 64 }
{
    leaf_count(chain.levels())
}

/// The bytes of a frame of the top.
pub fn frame_bytes(chain: Chain) -> u32
    ensures value { result ≡ frame_bytes_of chain }
    ensures bits { top_len (shapes_of chain) ≡ 8 * result }
{
    pdh_levels::frame_bytes(chain.levels())
}
