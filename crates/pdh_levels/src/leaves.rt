//! The leaves of a chain in their order, each as a tributary of its node.

ghost use Rattle.std.specs.Prelude.{◌≡◌, ◌≤◌, ◌<◌, All, length};
ghost use Rattle.pdh_line.specs.Paths.{path_of};
ghost use Rattle.pdh_line.specs.Nodes.{width, leaf_node, leaf_trib};
ghost use Rattle.pdh_levels.specs.Levels.{AreLevels, IsLevel, numbers_of};

use pdh_shape::{Level, Path, TOP};

/// A leaf as a tributary of its node.
#[derive(Clone, Copy, Debug, PartialEq, Eq)]
pub struct LeafPlace {
    /// The node.
    pub node: Path,
    /// Which of the node's tributaries it is, counted from 0.
    pub trib: u8,
}

/// How many leaves a chain of these levels has.
pub fn leaf_count(levels: &[Level]) -> u32
    requires few { length levels.now ≤ 3 }
    requires each { All IsLevel levels.now }
    ensures { result ≡ width (numbers_of levels.now) }
{
    match levels {
        [] => 1,
        [level, below @ ..] => u32::from(level.tribs) * leaf_count(below),
    }
}

/// The place of a leaf, counted from 0: leaves are numbered in the order of their paths.
pub fn leaf_place(levels: &[Level], leaf: u32) -> LeafPlace
    requires levels { AreLevels levels.now }
    requires known { leaf < width (numbers_of levels.now) }
    ensures node { result.node ≡ path_of (leaf_node (numbers_of levels.now) leaf) }
    ensures trib { result.trib ≡ leaf_trib (numbers_of levels.now) leaf }
{
    match levels {
        [] | [_] => LeafPlace {
            node: TOP,
            trib: leaf as u8,
        },
        [_, below @ ..] => {
            let width = leaf_count(below);
            let place = leaf_place(below, leaf % width);
            LeafPlace {
                node: Path {
                    depth: place.node.depth + 1,
                    first: (leaf / width) as u8 + 1,
                    second: place.node.first,
                },
                trib: place.trib,
            }
        }
    }
}
