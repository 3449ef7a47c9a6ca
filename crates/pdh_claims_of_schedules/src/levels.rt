//! What callers may rely on of the nodes and leaves of a chain, and of delays.

ghost use Rattle.std.specs.Prelude.{◌≡◌, ◌<◌, ◌+◌, ◌*◌, ◌/◌, true, false, [], ◌∷◌};
ghost use Rattle.pdh_levels.specs.Levels.{AreLevels, IsLevel};
ghost use Rattle.pdh_line.specs.Paths.{steps_of};

use pdh_levels::{
    LeafPlace, delay, frame_bytes, leaf_count, leaf_place, level_of, node_at, node_count,
    node_place, store_count,
};
use pdh_shape::{Level, Path};

/// The top holds back two frames, and each store a lead of 48 bits and the allowance of 18.
#[tactic(auto, unfolding(pdh_line::specs::Nodes::delay_below))]
pub fn delay_of_one_frame_fewer(level: Level) -> u32
    requires level { IsLevel level }
    requires low { level.low < level.len }
    ensures { result ≡ 66 + 2 * (level.low + 1) }
{
    delay(&[Level {
        locked: false,
        ..level
    }])
}

/// The bytes of a frame are those of a frame of the top.
pub fn frame_of_the_lowest_level(top: Level, below: Level) -> u32
    requires { AreLevels (top ∷ below ∷ []) }
    ensures { result ≡ top.len / 8 }
{
    frame_bytes(&[top, below])
}

/// Of four nodes with four leaves each, the sixth leaf is the second tributary of its node.
pub fn leaf_of_another_tributary(top: Level, below: Level) -> LeafPlace
    requires { AreLevels (record top { tribs = 4 } ∷ record below { tribs = 4 } ∷ []) }
    ensures { result.trib ≡ 1 }
{
    leaf_place(&[Level { tribs: 4, ..top }, Level { tribs: 4, ..below }], 5)
}

/// Of four nodes with four leaves each, the fourth leaf is one of the first node.
pub fn leaf_of_the_next_node(top: Level, below: Level) -> LeafPlace
    requires { AreLevels (record top { tribs = 4 } ∷ record below { tribs = 4 } ∷ []) }
    ensures { result.node ≡ record { depth = 1; first = 1; second = 0 } }
{
    leaf_place(&[Level { tribs: 4, ..top }, Level { tribs: 4, ..below }], 3)
}

/// Seven nodes with four leaves each have 28 leaves.
pub fn leaves_of_the_levels_below_the_top(top: Level, below: Level) -> u32
    requires top { IsLevel (record top { tribs = 7 }) }
    requires below { IsLevel (record below { tribs = 4 }) }
    ensures { result ≡ 28 }
{
    leaf_count(&[Level { tribs: 7, ..top }, Level { tribs: 4, ..below }])
}

/// A tributary of the top is a node of the second level.
pub fn level_of_the_top(top: Level, below: Level) -> Level
    ensures { result ≡ below }
{
    let node = Path {
        depth: 1,
        first: 4,
        second: 0,
    };
    level_of(&[Level { tribs: 4, ..top }, below], &node)
}

/// A top with four tributaries that are nodes makes five nodes.
pub fn node_behind_the_last_forgotten(top: Level, below: Level) -> usize
    requires top { IsLevel (record top { tribs = 4 }) }
    requires below { IsLevel (record below { tribs = 4 }) }
    ensures { result ≡ 5 }
{
    node_count(&[Level { tribs: 4, ..top }, Level { tribs: 4, ..below }])
}

/// Before `/1/2` stand `/`, `/1` and `/1/1`.
pub fn node_of_another_tributary(top: Level, middle: Level, below: Level) -> usize
    requires { AreLevels (record top { tribs = 4 } ∷ record middle { tribs = 4 } ∷ record below { tribs = 4 } ∷ []) }
    ensures { result ≡ 3 }
{
    let node = Path {
        depth: 2,
        first: 1,
        second: 2,
    };
    node_place(
        &[
            Level { tribs: 4, ..top },
            Level { tribs: 4, ..middle },
            Level { tribs: 4, ..below },
        ],
        &node,
    )
}

/// Behind `/` and `/1` stands `/1/1`, before all other nodes of its top.
pub fn nodes_level_by_level(top: Level, middle: Level, below: Level) -> Path
    requires { AreLevels (record top { tribs = 4 } ∷ record middle { tribs = 4 } ∷ record below { tribs = 4 } ∷ []) }
    ensures { steps_of result ≡ 1 ∷ 1 ∷ [] }
{
    node_at(
        &[
            Level { tribs: 4, ..top },
            Level { tribs: 4, ..middle },
            Level { tribs: 4, ..below },
        ],
        2,
    )
}

/// A locked node has no store, however many tributaries it has.
pub fn store_without_a_store(level: Level) -> usize
    ensures { result ≡ 0 }
{
    store_count(&Level {
        locked: true,
        ..level
    })
}
