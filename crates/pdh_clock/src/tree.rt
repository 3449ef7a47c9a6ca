//! The nodes of a chain, each with its rows.

ghost use Rattle.std.specs.Prelude.{◌≡◌, ◌≤◌, ◌<◌, ◌*◌, ◌+◌, ◌-◌, ℕ, List, [], ◌∷◌, ◌++◌, All, IsSome, Some, OnOk, IfOk, length, get_or, slice_index, set};
ghost use Rattle.pdh_rows.specs.Rows.{node_frames, node_frame_count, node_counts};
ghost use Rattle.pdh_rows.specs.Stored.{IsTable, rows_of};
ghost use Rattle.pdh_levels.specs.Levels.{AreLevels, IsLevel, level_at, stores_at, nodes_in, size_of, place_of, most_tributaries};
ghost use Rattle.pdh_line.specs.Paths.{steps_of, path_of};
ghost use Rattle.pdh_clock.specs.Contents.{IsRowOf, frames_of, rows_at, by_nodes};
ghost use Rattle.pdh_clock.specs.Row.{Row};
ghost use Rattle.pdh_clock.specs.Made.{IsRated};
ghost use Rattle.pdh_clock.specs.Stored.{IsTree, IsSmallRow, node_path, said_in, row_bytes, rows_in};
ghost use Rattle.pdh_rows.specs.Flows.{FlowFits};
ghost use Rattle.pdh_shape.specs.OwnNumbers.{most_bytes};

use crate::ratio::ratio_of;
use pdh_levels::{MOST_TRIBUTARIES, level_of, node_at, node_count, node_place, store_count};
use pdh_rows::{Says, Table};
use pdh_shape::{Level, Path};
use std::alloc::{AllocError, Global};

/// A node of a chain, with its rows.
#[derive(Drop)]
pub struct NodeRows {
    /// The node.
    pub path: Path,
    /// Its rows.
    pub table: Table,
}

/// The nodes of a chain in order: each stands before those below it, and these in order of their tributaries.
#[derive(Drop)]
pub struct Tree {
    /// The levels of the chain, from the top.
    pub levels: Vec<Level>,
    /// Its nodes.
    pub nodes: Vec<NodeRows>,
}

/// The counts of a node's tributaries in a frame, in bits; what stands behind the last tributary is 0.
pub fn counts_in(table: &Table, frame: u64) -> [u32; MOST_TRIBUTARIES]
    requires table { IsTable table.now }
    requires few { table.now.tribs ≤ most_tributaries }
    requires scheduled { frame < node_frame_count (rows_of table.now) }
    ensures counts { (trib : ℕ) → trib < table.now.tribs
        → slice_index result trib ≡ node_counts (rows_of table.now) trib frame }
{
    let mut counts = [0; MOST_TRIBUTARIES];
    table.counts(frame, &mut counts);
    counts
}

impl Tree {
    /// The nodes of a chain, none of which has a row.
    pub fn new(alloc: Global, levels: &[Level]) -> Result<Tree, AllocError>
        requires levels { AreLevels levels.now }
        requires rated { All IsRated levels.now }
        ensures tree { IfOk result (λ tree. IsTree tree) }
        ensures levels { IfOk result (λ tree. tree.levels.items ≡ levels.now) }
        ensures rows { IfOk result (λ tree. rows_in tree ≡ []) }
    {
        let mut nodes = Vec::new(alloc);
        for place in 0..node_count(levels) {
            let path = node_at(levels, place);
            let level = level_of(levels, &path);
            let table = Table::new(alloc, store_count(&level), ratio_of(&level))?;
            nodes.push(NodeRows { path, table })?;
        }
        Ok(Tree {
            levels: levels.to_vec(alloc)?,
            nodes,
        })
    }

    /// The node before which so many others stand.
    pub fn node(&self, place: usize) -> Path
        requires tree { IsTree self.now }
        requires inside { place < length self.now.nodes.items }
        ensures steps { steps_of result ≡ get_or (nodes_in self.now.levels.items) place [] }
        ensures plain { result ≡ path_of (steps_of result) }
    {
        node_at(&self.levels, place)
    }

    /// How many nodes stand before a node.
    fn place(&self, node: &Path) -> usize
        requires tree { IsTree self.now }
        requires node { IsSome (level_at self.now.levels.items (steps_of node.now)) }
        ensures { result ≡ place_of self.now.levels.items (steps_of node.now) }
    {
        node_place(&self.levels, node)
    }

    /// The level of a node.
    pub fn level_of(&self, node: &Path) -> Level
        requires { IsSome (level_at self.now.levels.items (steps_of node.now)) }
        ensures { level_at self.now.levels.items (steps_of node.now) ≡ Some result }
    {
        level_of(&self.levels, node)
    }

    /// The rows of a node.
    pub fn table_of(&self, node: &Path) -> &Table
        requires tree { IsTree self.now }
        requires node { IsSome (level_at self.now.levels.items (steps_of node.now)) }
        ensures table { IsTable result.now }
        ensures tribs { result.now.tribs ≡ stores_at self.now.levels.items (steps_of node.now) }
        ensures frames { node_frames (rows_of result.now) ≡ frames_of (rows_in self.now) (steps_of node.now) }
    {
        &self.nodes[self.place(node)].table
    }

    /// Adds a row behind the others of its node.
    pub fn add(
        &mut self,
        node: &Path,
        repeat: u32,
        says: Says,
        numbers: &[u32],
    ) -> Result<(), AllocError>
        requires tree { IsTree self.old }
        requires row { IsRowOf self.old.levels.items (said_in self.old.levels.items (steps_of node.now) repeat says numbers.now) }
        requires fits { All (FlowFits repeat) (said_in self.old.levels.items (steps_of node.now) repeat says numbers.now).flows }
        requires small { IsSmallRow (said_in self.old.levels.items (steps_of node.now) repeat says numbers.now) }
        requires all_small { All IsSmallRow (rows_at (rows_in self.old) (steps_of node.now)) }
        requires few { row_bytes self.old.levels.items (steps_of node.now) * length (rows_at (rows_in self.old) (steps_of node.now)) ≤ most_bytes }
        ensures tree { OnOk result (IsTree self.new) }
        ensures levels { OnOk result (self.new.levels.items ≡ self.old.levels.items) }
        ensures rows { OnOk result ((rows : List Row) → rows_in self.old ≡ by_nodes self.old.levels.items rows
            → rows_in self.new ≡ by_nodes self.old.levels.items (rows ++ said_in self.old.levels.items (steps_of node.now) repeat says numbers.now ∷ [])) }
    {
        let place = self.place(node);
        self.nodes[place].table.add(repeat, says, numbers)?;
        Ok(())
    }
}
