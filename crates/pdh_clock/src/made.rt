//! The rows of schedules that are made from rates and clock offsets: one for each node.

ghost use Rattle.std.specs.Prelude.{◌≡◌, ℕ, ◌<◌, ◌≤◌, ◌+◌, ◌-◌, All, IsSome, length, slice_index, IfOk, OnOk};
ghost use Rattle.pdh_rows.specs.Stored.{IsTable, rows_of};
ghost use Rattle.pdh_levels.specs.Levels.{AreLevels, IsLevel, level_at, level_stores};
ghost use Rattle.pdh_line.specs.Paths.{steps_of};
ghost use Rattle.pdh_clock.specs.Row.{ratio_of as nominal};
ghost use Rattle.pdh_clock.specs.Made.{IsRated, scale_of, tributary_offset, most_made};
ghost use Rattle.pdh_clock.specs.Making.{AreMade, line_at, made_rows};
ghost use Rattle.pdh_clock.specs.Stored.{IsTree};
ghost use Rattle.pdh_shape.specs.OwnNumbers.{most_frames};

use crate::bias::{Bias, Offset};
use crate::ratio::ratio_of;
use crate::tree::Tree;
use pdh_levels::{MOST_TRIBUTARIES, store_count};
use pdh_rows::{Says, Table};
use pdh_shape::{Level, Path};
use std::alloc::{AllocError, Global};

// The clocks at a node: its line's, and what those of its tributaries follow from.
#[derive(Clone, Copy)]
struct Clocks {
    bias: Bias,
    // How many levels of nodes there are below the node.
    height: usize,
    line: Offset,
}

impl Clocks {
    // The offset of a tributary of a node of this level, by its number from 1.
    fn tributary(self, level: &Level, number: u8) -> Offset
        ensures { result ≡ tributary_offset level.now self.bias self.height self.line number }
    {
        if level.locked {
            self.line
        } else {
            self.bias.offset(self.height, number)
        }
    }

    // The clocks at the node of a tributary.
    fn below(self, level: &Level, number: u8) -> Clocks
        requires { 0 < self.height }
        ensures bias { result.bias ≡ self.bias }
        ensures height { result.height + 1 ≡ self.height }
        ensures line { result.line ≡ tributary_offset level.now self.bias self.height self.line number }
    {
        Clocks {
            bias: self.bias,
            height: self.height - 1,
            line: self.tributary(level, number),
        }
    }
}

// The rate of each tributary, in millionths of its nominal rate; what stands behind the last tributary is 0.
fn rates(level: &Level, clocks: Clocks) -> [u32; MOST_TRIBUTARIES]
    requires level { IsLevel level.now }
    requires rated { IsRated level.now }
    ensures { (trib : ℕ) → trib < level.now.tribs
        → slice_index result trib ≡ scale_of (tributary_offset level.now clocks.bias clocks.height clocks.line (trib + 1)) level.now.trib_ppm }
{
    let mut rates = [0; MOST_TRIBUTARIES];
    for trib in 0..level.tribs {
        let offset = clocks.tributary(level, trib + 1);
        rates[usize::from(trib)] = offset.scale(level.trib_ppm);
    }
    rates
}

// The row of a node, where it has frames.
fn made_table(
    alloc: Global,
    level: &Level,
    clocks: Clocks,
    frames: u64,
) -> Result<Table, AllocError>
    requires level { IsLevel level.now }
    requires rated { IsRated level.now }
    requires few { frames ≤ most_made }
    ensures rows { IfOk result (λ table. rows_of table ≡ made_rows level.now clocks.bias clocks.height clocks.line frames) }
    ensures table { IfOk result (λ table. IsTable table) }
    ensures tribs { IfOk result (λ table. table.tribs ≡ level_stores level.now) }
    ensures ratio { IfOk result (λ table. table.ratio ≡ nominal level.now) }
{
    let stores = store_count(level);
    let mut table = Table::new(alloc, stores, ratio_of(level))?;
    if frames == 0 {
        return Ok(table);
    }
    let line = clocks.line.scale(level.ppm);
    let rates = rates(level, clocks);
    table.add(frames as u32, Says::Rates { line }, &rates[..stores])?;
    Ok(table)
}

// The clocks at a node of a chain.
fn clocks_of(levels: &[Level], node: &Path, bias: Bias) -> Clocks
    requires { IsSome (level_at levels.now (steps_of node.now)) }
    ensures bias { result.bias ≡ bias }
    ensures height { result.height + length (steps_of node.now) + 1 ≡ length levels.now }
    ensures line { result.line ≡ line_at levels.now bias (steps_of node.now) }
{
    let top = Clocks {
        bias,
        height: levels.len() - 1,
        line: bias.offset(levels.len(), 1),
    };
    if node.depth == 0 {
        return top;
    }
    let first = top.below(&levels[0], node.first);
    if node.depth == 1 {
        return first;
    }
    first.below(&levels[1], node.second)
}

// Makes the rows of a node, where those of the nodes before it are made.
fn make_node(
    alloc: Global,
    tree: &mut Tree,
    place: usize,
    top_frames: u64,
    bias: Bias,
) -> Result<(), AllocError>
    requires tree { IsTree tree.old }
    requires rated { All IsRated tree.old.levels.items }
    requires few { top_frames ≤ most_frames }
    requires inside { place < length tree.old.nodes.items }
    requires before { AreMade tree.old bias top_frames place }
    ensures tree { OnOk result (IsTree tree.new) }
    ensures levels { OnOk result (tree.new.levels.items ≡ tree.old.levels.items) }
    ensures nodes { OnOk result (length tree.new.nodes.items ≡ length tree.old.nodes.items) }
    ensures made { OnOk result (AreMade tree.new bias top_frames (place + 1)) }
{
    let node = tree.nodes[place].path;
    let level = tree.level_of(&node);
    let frames = tree.begun(&node, top_frames);
    let clocks = clocks_of(&tree.levels, &node, bias);
    tree.nodes[place].table = made_table(alloc, &level, clocks, frames)?;
    Ok(())
}

/// The rows of each node of a chain whose top makes so many frames.
pub fn made_tree(
    alloc: Global,
    levels: &[Level],
    frames: u64,
    bias: Bias,
) -> Result<Tree, AllocError>
    requires levels { AreLevels levels.now }
    requires rated { All IsRated levels.now }
    requires few { frames ≤ most_frames }
    ensures tree { IfOk result (λ tree. IsTree tree) }
    ensures levels { IfOk result (λ tree. tree.levels.items ≡ levels.now) }
    ensures made { IfOk result (λ tree. AreMade tree bias frames (length tree.nodes.items)) }
{
    let mut tree = Tree::new(alloc, levels)?;
    for place in 0..tree.nodes.len() {
        make_node(alloc, &mut tree, place, frames, bias)?;
    }
    Ok(tree)
}
