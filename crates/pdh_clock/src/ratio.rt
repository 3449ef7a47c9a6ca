//! The flow of a tributary without a clock offset.

ghost use Rattle.std.specs.Prelude.{◌≡◌};
ghost use Rattle.pdh_levels.specs.Levels.{IsLevel};
ghost use Rattle.pdh_clock.specs.Made.{IsRated};
ghost use Rattle.pdh_clock.specs.Row.{ratio_of as nominal};

use pdh_rows::Flow;
use pdh_shape::Level;

/// The flow of a tributary of a node of this level, where it and the line have their nominal rates.
pub fn ratio_of(level: &Level) -> Flow
    requires level { IsLevel level.now }
    requires rated { IsRated level.now }
    ensures { result ≡ nominal level.now }
{
    Flow {
        bits: u128::from(level.len) * (level.trib_rate * level.per),
        frames: level.rate * level.trib_per,
    }
}
