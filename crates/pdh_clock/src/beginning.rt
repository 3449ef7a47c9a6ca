//! How many frames each node begins while the top makes a number of frames.

ghost use Rattle.std.specs.Prelude.{◌≡◌, ◌≤◌, ◌<◌, ◌*◌, ◌+◌, ◌/◌, ◌%◌, ◌==◌, ◌^◌, if◌then◌else◌, IsNone, IsSome, IfSome, Some, option_map};
ghost use Rattle.pdh_line.specs.Nodes.{width};
ghost use Rattle.pdh_line.specs.Paths.{path_of};
ghost use Rattle.pdh_shape.specs.declared.place.Level.{Level};
ghost use Rattle.pdh_levels.specs.Levels.{level_at, place_of, numbers_of};
ghost use Rattle.pdh_line.specs.Paths.{steps_of};
ghost use Rattle.pdh_clock.specs.Contents.{counts, frame_count};
ghost use Rattle.pdh_clock.specs.Begun.{taken as bits_taken, bits_made, bits_entered, frames_begun, NoneShort, shortage, shortage_of};
ghost use Rattle.pdh_line.specs.Progress.{begun_by, came_by};
ghost use Rattle.pdh_rows.specs.Rows.{node_frame_count, node_counts};
ghost use Rattle.pdh_rows.specs.Stored.{IsTable, rows_of};
ghost use Rattle.pdh_clock.specs.Stored.{IsTree, contents_of, rows_in};

use crate::tree::Tree;
use pdh_levels::leaf_place;
use pdh_rows::Table;
use pdh_shape::{Path, TOP};

/// A node that has fewer frames than it is to begin.
#[derive(Clone, Copy, Debug, PartialEq, Eq)]
pub struct Short {
    /// The node.
    pub node: Path,
    /// How many frames the schedule gives it.
    pub have: u64,
    /// How many frames it is to begin.
    pub need: u64,
}

// The lead, as a summand of the bits that are taken.
const LEAD: u128 = pdh_shape::LEAD as u128;

/// How many bits have come into the store of a tributary, counted from 0, where its node made so many bits of its line in frames
/// of that length; none before the first of them.
pub fn came_in(table: &Table, len: u32, trib: u8, bits: u128) -> u128
    requires table { IsTable table.now }
    requires in_range { trib < table.now.tribs }
    requires some { 0 < len }
    requires enough { begun_by len bits ≤ node_frame_count (rows_of table.now) }
    requires few { bits ≤ 18446744073709551615 * len }
    ensures came { result ≡ (if bits == 0 then 0 else came_by len (node_counts (rows_of table.now) trib) (bits / len) (bits % len)) }
    ensures few { result ≤ 2 ^ 70 }
{
    if bits == 0 {
        return 0;
    }
    let trib = usize::from(trib);
    let frames = (bits / u128::from(len)) as u64;
    let begun = (bits % u128::from(len)) as u64;
    if begun == 0 {
        return LEAD + u128::from(table.total(frames, trib));
    }
    let (before, count) = table.total_and_count(frames, trib);
    let so_far = begun * u64::from(count) / u64::from(len);
    LEAD + u128::from(before) + u128::from(so_far)
}

impl Tree {
    /// How many bits of a tributary, counted from 0, a node has taken when it made so many bits of its line; where it has no
    /// stores, those of its whole frames.
    pub fn taken(&self, node: &Path, trib: u8, bits: u128) -> u128
        requires tree { IsTree self.now }
        requires node { IsSome (level_at self.now.levels.items (steps_of node.now)) }
        requires in_range { (level : Level) → level_at self.now.levels.items (steps_of node.now) ≡ Some level → trib < level.tribs }
        requires enough { (level : Level) → level_at self.now.levels.items (steps_of node.now) ≡ Some level
            → begun_by level.len bits ≤ frame_count (rows_in self.now) (steps_of node.now) }
        requires few { (level : Level) → level_at self.now.levels.items (steps_of node.now) ≡ Some level → bits ≤ 18446744073709551615 * level.len }
        ensures taken { (level : Level) → level_at self.now.levels.items (steps_of node.now) ≡ Some level
            → result ≡ bits_taken level trib (counts (rows_in self.now) (steps_of node.now) trib) bits }
        ensures few { result ≤ 2 ^ 70 }
    {
        let level = self.level_of(node);
        if level.locked {
            return bits / u128::from(level.len) * u128::from(level.low);
        }
        came_in(self.table_of(node), level.len, trib, bits)
    }

    /// How many bits a node makes while the top makes so many frames.
    fn bits(&self, node: &Path, top_frames: u64) -> u128
        requires tree { IsTree self.now }
        requires node { IsSome (level_at self.now.levels.items (steps_of node.now)) }
        requires enough { NoneShort (contents_of self.now) top_frames (place_of self.now.levels.items (steps_of node.now)) }
        ensures bits { result ≡ bits_made (contents_of self.now) top_frames (steps_of node.now) }
        ensures few { (level : Level) → level_at self.now.levels.items (steps_of node.now) ≡ Some level → result ≤ 18446744073709551615 * level.len }
    {
        let top = u128::from(top_frames) * u128::from(self.levels[0].len);
        if node.depth == 0 {
            return top;
        }
        let first = self.taken(&TOP, node.first - 1, top);
        if node.depth == 1 {
            return first;
        }
        let parent = Path {
            depth: 1,
            first: node.first,
            second: 0,
        };
        self.taken(&parent, node.second - 1, first)
    }

    /// How many frames a node begins while the top makes so many, where no node before it has too few.
    pub fn begun(&self, node: &Path, top_frames: u64) -> u64
        requires tree { IsTree self.now }
        requires node { IsSome (level_at self.now.levels.items (steps_of node.now)) }
        requires enough { NoneShort (contents_of self.now) top_frames (place_of self.now.levels.items (steps_of node.now)) }
        ensures { result ≡ frames_begun (contents_of self.now) top_frames (steps_of node.now) }
    {
        let len = u128::from(self.level_of(node).len);
        self.bits(node, top_frames).div_ceil(len) as u64
    }

    /// How many bits of a leaf enter while the top makes so many frames, where no node has too few.
    pub fn entered(&self, leaf: u32, top_frames: u64) -> u128
        requires tree { IsTree self.now }
        requires leaf { leaf < width (numbers_of self.now.levels.items) }
        requires enough { IsNone (shortage (contents_of self.now) top_frames) }
        ensures { result ≡ bits_entered (contents_of self.now) top_frames leaf }
    {
        let place = leaf_place(&self.levels, leaf);
        let begun = self.begun(&place.node, top_frames);
        let level = self.level_of(&place.node);
        if level.locked {
            return u128::from(begun) * u128::from(level.low);
        }
        if begun == 0 {
            return 0;
        }
        let table = self.table_of(&place.node);
        LEAD + u128::from(table.total(begun, usize::from(place.trib)))
    }

    /// The first node that has fewer frames than it begins while the top makes so many.
    pub fn short(&self, top_frames: u64) -> Option<Short>
        requires { IsTree self.now }
        ensures short { option_map shortage_of result ≡ shortage (contents_of self.now) top_frames }
        ensures plain { IfSome result (λ short. short.node ≡ path_of (steps_of short.node)) }
    {
        for place in 0..self.nodes.len() {
            let node = self.node(place);
            let have = self.nodes[place].table.frames();
            let need = self.begun(&node, top_frames);
            if have < need {
                return Some(Short { node, have, need });
            }
        }
        None
    }
}
