//! How many elastic stores a node of a level has.

ghost use Rattle.std.specs.Prelude.{◌≡◌};
ghost use Rattle.pdh_levels.specs.Levels.{level_stores};

use pdh_shape::Level;

/// How many tributaries of a node of this level have a store, and so a count in each frame.
pub fn store_count(level: &Level) -> usize
    ensures { result ≡ level_stores level.now }
{
    if level.locked {
        0
    } else {
        usize::from(level.tribs)
    }
}
