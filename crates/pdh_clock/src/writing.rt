//! The text that the rows of a chain's nodes are written as.

ghost use Rattle.std.specs.Prelude.{◌≡◌, ◌<◌, ◌≤◌, ◌+◌, ◌*◌, ◌^◌, ℕ, List, [], ◌∷◌, ◌++◌, length, take, drop, replicate, slice_index, decimal, OnOk, IfOk, IsSome, All};
ghost use Rattle.std.specs.List.{flat_map};
ghost use Rattle.pdh_rows.specs.Rows.{node_frames};
ghost use Rattle.pdh_rows.specs.Stored.{IsTable, rows_of};
ghost use Rattle.pdh_levels.specs.Levels.{level_at, most_tributaries};
ghost use Rattle.pdh_line.specs.Paths.{steps_of, path_text};
ghost use Rattle.pdh_row_text.specs.Form.{counts_form};
ghost use Rattle.pdh_clock.specs.Stored.{IsTree, contents_of, node_path};
ghost use Rattle.pdh_clock.specs.Written.{number_words, row_line, longest_rows, text_of};
ghost use Rattle.pdh_clock.specs.Runs.{run_counts, run_text, text_before, text_from};

use crate::tree::{NodeRows, Tree, counts_in};
use itoa::Buffer;
use pdh_levels::MOST_TRIBUTARIES;
use pdh_rows::{Says, Table};
use pdh_shape::Path;
use std::alloc::{AllocError, Global};

/// Frames that are the next to be written, all with the same counts.
#[derive(Clone, Copy)]
struct Run {
    /// How many there are.
    frames: u64,
    /// How many counts each has, one for each tributary.
    tribs: usize,
    /// The counts, and behind them 0.
    first: [u32; MOST_TRIBUTARIES],
}

impl Run {
    /// So many frames with these counts.
    fn new(frames: u64, counts: &[u32]) -> Run
        requires { length counts.now ≤ most_tributaries }
        ensures frames { result.frames ≡ frames }
        ensures tribs { result.tribs ≡ length counts.now }
        ensures counts { run_counts result ≡ counts.now }
    {
        let mut first = [0; MOST_TRIBUTARIES];
        first[..counts.len()].copy_from_slice(counts);
        Run {
            frames,
            tribs: counts.len(),
            first,
        }
    }

    /// The counts of each of its frames.
    fn counts(&self) -> &[u32]
        requires { self.now.tribs ≤ most_tributaries }
        ensures { result.now ≡ run_counts self.now }
    {
        &self.first[..self.tribs]
    }
}

/// Appends a byte, and behind it a number in decimal.
fn push_number(text: &mut Vec<u8>, before: u8, number: u64) -> Result<(), AllocError>
    ensures { OnOk result (text.new.items ≡ text.old.items ++ before ∷ decimal number) }
{
    let mut buffer = Buffer::new();
    text.push(before)?;
    text.extend_from_slice(buffer.format(number).as_bytes())?;
    Ok(())
}

/// Appends numbers in decimal, each behind a space.
fn push_numbers(text: &mut Vec<u8>, numbers: &[u32]) -> Result<(), AllocError>
    ensures { OnOk result (text.new.items ≡ text.old.items ++ number_words numbers.now) }
{
    for number in numbers {
        push_number(text, b' ', u64::from(*number))?;
    }
    Ok(())
}

/// Appends a path: its steps, each behind a slash, or a slash alone.
fn push_path(text: &mut Vec<u8>, path: &Path) -> Result<(), AllocError>
    ensures { OnOk result (text.new.items ≡ text.old.items ++ path_text (steps_of path.now)) }
{
    match path.depth {
        0 => Ok(text.push(b'/')?),
        1 => push_number(text, b'/', u64::from(path.first)),
        _ => {
            push_number(text, b'/', u64::from(path.first))?;
            push_number(text, b'/', u64::from(path.second))
        }
    }
}

/// Appends the line of a row of counts.
fn push_row(text: &mut Vec<u8>, path: &Path, repeat: u64, counts: &[u32]) -> Result<(), AllocError>
    ensures { OnOk result (text.new.items ≡ text.old.items ++ row_line (counts_form (steps_of path.now) repeat counts.now)) }
{
    push_path(text, path)?;
    push_number(text, b' ', repeat)?;
    push_numbers(text, counts)?;
    text.push(b'\n')?;
    Ok(())
}

/// Appends the row of the frames of a run, if it has any.
fn push_run(text: &mut Vec<u8>, path: &Path, run: &Run) -> Result<(), AllocError>
    requires { run.now.tribs ≤ most_tributaries }
    ensures { OnOk result (text.new.items ≡ text.old.items ++ run_text (steps_of path.now) run.now) }
{
    if run.frames == 0 {
        return Ok(());
    }
    push_row(text, path, run.frames, run.counts())
}

/// Puts frames with the same counts behind those of a run. Where the run's have others it is written, and a new one begins.
fn push_frames(
    text: &mut Vec<u8>,
    path: &Path,
    run: &mut Run,
    frames: u64,
    counts: &[u32],
) -> Result<(), AllocError>
    requires some { 0 < frames }
    requires tribs { length counts.now ≡ run.old.tribs }
    requires few { run.old.tribs ≤ most_tributaries }
    requires fits { run.old.frames + frames < 2 ^ 64 }
    ensures tribs { OnOk result (run.new.tribs ≡ run.old.tribs) }
    ensures frames { OnOk result (run.new.frames ≤ run.old.frames + frames) }
    ensures text { OnOk result ((rest : List (List ℕ))
        → text_before (steps_of path.now) text.new.items run.new rest
        ≡ text_before (steps_of path.now) text.old.items run.old (replicate frames counts.now ++ rest)) }
{
    if run.counts() == counts {
        run.frames += frames;
        return Ok(());
    }
    push_run(text, path, run)?;
    *run = Run::new(frames, counts);
    Ok(())
}

/// The number of a row's first frame, and that of the first one behind it.
fn span_of(table: &Table, row: usize) -> (u64, u64)
    requires table { IsTable table.now }
    requires in_range { row < length table.now.repeats.items }
    ensures first { result.0 ≡ slice_index table.now.firsts.items row }
    ensures end { result.1 ≡ slice_index table.now.firsts.items (row + 1) }
    ensures frames { result.1 ≡ result.0 + slice_index table.now.repeats.items row }
{
    let firsts = table.firsts.as_slice();
    (firsts[row], firsts[row + 1])
}

/// The numbers of a row.
fn row_numbers(table: &Table, row: usize) -> &[u32]
    requires table { IsTable table.now }
    requires in_range { row < length table.now.repeats.items }
    ensures { result.now ≡ take table.now.tribs (drop (row * table.now.tribs) table.now.numbers.items) }
{
    let first = row * table.tribs;
    &table.numbers.as_slice()[first..first + table.tribs]
}

/// Puts the frames of a row behind those of a run. A row of counts is taken at once, another one frame by frame.
fn push_frames_of(
    text: &mut Vec<u8>,
    node: &NodeRows,
    run: &mut Run,
    row: usize,
) -> Result<(), AllocError>
    requires table { IsTable node.now.table }
    requires in_range { row < length node.now.table.repeats.items }
    requires some { 0 < slice_index node.now.table.repeats.items row }
    requires tribs { run.old.tribs ≡ node.now.table.tribs }
    requires few { run.old.tribs ≤ most_tributaries }
    requires before { run.old.frames ≤ slice_index node.now.table.firsts.items row }
    ensures tribs { OnOk result (run.new.tribs ≡ run.old.tribs) }
    ensures before { OnOk result (run.new.frames ≤ slice_index node.now.table.firsts.items (row + 1)) }
    ensures text { OnOk result
        (text_from node.now text.new.items run.new (row + 1) ≡ text_from node.now text.old.items run.old row) }
{
    let table = &node.table;
    let (first, end) = span_of(table, row);
    if let Says::Counts = table.says[row] {
        let frames = end - first;
        return push_frames(text, &node.path, run, frames, row_numbers(table, row));
    }
    for frame in first..end {
        let counts = counts_in(table, frame);
        push_frames(text, &node.path, run, 1, &counts[..table.tribs])?;
    }
    Ok(())
}

/// Appends the lines of a node's rows, one row for each longest run of equal frames.
fn push_node(text: &mut Vec<u8>, node: &NodeRows) -> Result<(), AllocError>
    requires table { IsTable node.now.table }
    requires few { node.now.table.tribs ≤ most_tributaries }
    requires some_frames { All (λ row. 0 < row.repeat) (rows_of node.now.table) }
    ensures { OnOk result
        (text.new.items ≡ text.old.items ++ flat_map row_line (longest_rows (node_path node.now) (node_frames (rows_of node.now.table)))) }
{
    let mut run = Run {
        frames: 0,
        tribs: node.table.tribs,
        first: [0; MOST_TRIBUTARIES],
    };
    for row in 0..node.table.repeats.len() {
        push_frames_of(text, node, &mut run, row)?;
    }
    push_run(text, &node.path, &run)
}

/// The text of the nodes' rows, a node before those below it.
pub fn write_rows(alloc: Global, tree: &Tree) -> Result<Vec<u8>, AllocError>
    requires { IsTree tree.now }
    ensures { IfOk result (λ text. text.items ≡ text_of (contents_of tree.now)) }
{
    let mut text = Vec::new(alloc);
    for node in &tree.nodes {
        push_node(&mut text, node)?;
    }
    Ok(text)
}
