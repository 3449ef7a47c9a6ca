//! The nodes of a chain in their order.

ghost use Rattle.std.specs.Prelude.{◌≡◌, ◌≤◌, ◌<◌, [], All, IsSome, Some, length};
ghost use Rattle.std.specs.List.{slice_index_or};
ghost use Rattle.pdh_line.specs.Paths.{steps_of, path_of};
ghost use Rattle.pdh_levels.specs.Levels.{AreLevels, IsLevel, level_at, nodes_in, place_of};

use pdh_shape::{Level, Path, TOP};

/// How many nodes a chain of these levels has.
pub fn node_count(levels: &[Level]) -> usize
    requires few { length levels.now ≤ 3 }
    requires each { All IsLevel levels.now }
    ensures { result ≡ length (nodes_in levels.now) }
{
    match levels {
        [] => 0,
        [level, below @ ..] => 1 + usize::from(level.tribs) * node_count(below),
    }
}

/// The node before which so many others stand in the order of nodes.
pub fn node_at(levels: &[Level], place: usize) -> Path
    requires levels { AreLevels levels.now }
    requires inside { place < length (nodes_in levels.now) }
    ensures steps { steps_of result ≡ slice_index_or (nodes_in levels.now) place [] }
    ensures plain { result ≡ path_of (steps_of result) }
    ensures known { IsSome (level_at levels.now (steps_of result)) }
{
    if place == 0 {
        return TOP;
    }
    let size = node_count(&levels[1..]);
    let first = ((place - 1) / size) as u8 + 1;
    let second = ((place - 1) % size) as u8;
    Path {
        depth: if second == 0 { 1 } else { 2 },
        first,
        second,
    }
}

/// How many nodes stand before a node in the order of nodes.
pub fn node_place(levels: &[Level], node: &Path) -> usize
    requires levels { AreLevels levels.now }
    requires node { IsSome (level_at levels.now (steps_of node.now)) }
    ensures { result ≡ place_of levels.now (steps_of node.now) }
{
    if node.depth == 0 {
        return 0;
    }
    let before = usize::from(node.first - 1) * node_count(&levels[1..]);
    if node.depth == 1 {
        1 + before
    } else {
        1 + before + usize::from(node.second)
    }
}

/// The level of a node.
pub fn level_of(levels: &[Level], node: &Path) -> Level
    requires node { IsSome (level_at levels.now (steps_of node.now)) }
    ensures { level_at levels.now (steps_of node.now) ≡ Some result }
{
    match node.depth {
        0 => levels[0],
        1 => levels[1],
        _ => levels[2],
    }
}
