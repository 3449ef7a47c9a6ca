//! The rows of a node, each with what came before it.

ghost use Rattle.std.specs.Prelude.{◌≡◌, ◌≤◌, ◌<◌, ◌*◌, ◌+◌, ◌-◌, ◌^◌, ℕ, [], ◌∷◌, ◌++◌, length, slice_index, slice_index_or, OnOk, IfOk};
ghost use Rattle.std.specs.List.Sorted.{IsNonDecreasing};
ghost use Rattle.pdh_rows.specs.Flows.{flowed, flow_in, FlowFits};
ghost use Rattle.pdh_rows.specs.Stored.{IsTable, said_row, rows_of, row_frames, row_bits, stored_flow, sum_with};
ghost use Rattle.pdh_rows.specs.Rows.{node_frame_count, node_counts};
ghost use Rattle.pdh_rows.specs.Bounds.{IsTribRow};
ghost use Rattle.pdh_line.specs.Progress.{arrived};

use crate::flow::{Flow, Says};
use std::alloc::{AllocError, Global};

/// The rows of a node. Rows stay rows, however many frames they have, and the row of a frame is found by halves.
#[derive(Drop)]
pub struct Table {
    /// How many numbers a row has, one for each tributary.
    pub tribs: usize,
    /// The flow of a tributary where it and the line have their nominal rates.
    pub ratio: Flow,
    /// Of how many frames each row is.
    pub repeats: Vec<u32>,
    /// The number of each row's first frame, and then the number of all frames.
    pub firsts: Vec<u64>,
    /// What the numbers of each row say.
    pub says: Vec<Says>,
    /// The numbers of each row.
    pub numbers: Vec<u32>,
    /// For each row the bits of each tributary in the rows before it, and then those in all rows.
    pub before: Vec<u64>,
}

/// A row as it is for one of its tributaries.
#[derive(Clone, Copy)]
pub struct TribRow {
    /// The number of its first frame.
    pub first: u64,
    /// Of how many frames it is.
    pub frames: u32,
    /// The tributary's bits in the rows before it.
    pub before: u64,
    /// The tributary's bits in it.
    pub bits: u64,
    /// How they arrive.
    pub flow: Flow,
}

/// Adds to the end, for each tributary, its bits in all rows before a row and in that row.
fn push_sums(
    before: &mut Vec<u64>,
    ratio: Flow,
    repeat: u32,
    says: Says,
    numbers: &[u32],
) -> Result<(), AllocError>
    requires room { length numbers.now ≤ length before.old.items }
    requires flows { (trib : ℕ) → trib < length numbers.now
        → FlowFits repeat (flow_in ratio says (slice_index numbers.now trib)) }
    requires fits { (trib : ℕ) → trib < length numbers.now
        → sum_with ratio before.old.items repeat says numbers.now trib < 2 ^ 64 }
    ensures len { OnOk result
        (length before.new.items ≡ length before.old.items + length numbers.now) }
    ensures kept { OnOk result ((k : ℕ) → k < length before.old.items
        → slice_index before.new.items k ≡ slice_index before.old.items k) }
    ensures sums { OnOk result ((trib : ℕ) → trib < length numbers.now
        → slice_index before.new.items (length before.old.items + trib)
        ≡ sum_with ratio before.old.items repeat says numbers.now trib) }
{
    for number in numbers {
        let sum = before[before.len() - numbers.len()];
        let flow = says.flow(ratio, *number);
        before.push(sum + flow.arrived(u128::from(repeat)) as u64)?;
    }
    Ok(())
}

/// The number of the row that a frame is of, by the number of each row's first frame.
pub fn row_with(firsts: &[u64], frame: u64) -> usize
    requires rising { IsNonDecreasing firsts.now }
    requires begun { slice_index firsts.now 0 ≤ frame }
    requires ended { frame < slice_index firsts.now (length firsts.now - 1) }
    ensures row { result + 1 < length firsts.now }
    ensures first { slice_index firsts.now result ≤ frame }
    ensures next { frame < slice_index firsts.now (result + 1) }
{
    firsts.partition_point(|first| *first <= frame) - 1
}

impl Table {
    /// A table with no row.
    pub fn new(alloc: Global, tribs: usize, ratio: Flow) -> Result<Table, AllocError>
        ensures table { IfOk result (λ table. IsTable table) }
        ensures tribs { IfOk result (λ table. table.tribs ≡ tribs) }
        ensures ratio { IfOk result (λ table. table.ratio ≡ ratio) }
        ensures rows { IfOk result (λ table. rows_of table ≡ []) }
    {
        Ok(Table {
            tribs,
            ratio,
            repeats: Vec::new(alloc),
            firsts: vec![in alloc; 0; 1]?,
            says: Vec::new(alloc),
            numbers: Vec::new(alloc),
            before: vec![in alloc; 0; tribs]?,
        })
    }

    /// Adds a row at the end.
    pub fn add(&mut self, repeat: u32, says: Says, numbers: &[u32]) -> Result<(), AllocError>
        requires table { IsTable self.old }
        requires tribs { length numbers.now ≡ self.old.tribs }
        requires flows { (trib : ℕ) → trib < self.old.tribs
            → FlowFits repeat (flow_in self.old.ratio says (slice_index numbers.now trib)) }
        requires frames_fit { row_frames (rows_of self.old) + repeat < 2 ^ 64 }
        requires bits_fit { (trib : ℕ) → trib < self.old.tribs
            → row_bits (rows_of self.old) trib + flowed (flow_in self.old.ratio says (slice_index numbers.now trib)) repeat < 2 ^ 64 }
        ensures table { OnOk result (IsTable self.new) }
        ensures tribs { OnOk result (self.new.tribs ≡ self.old.tribs) }
        ensures ratio { OnOk result (self.new.ratio ≡ self.old.ratio) }
        ensures rows { OnOk result
            (rows_of self.new ≡ rows_of self.old ++ said_row self.old.ratio repeat says numbers.now ∷ []) }
    {
        let frames = self.frames();
        push_sums(&mut self.before, self.ratio, repeat, says, numbers)?;
        self.numbers.extend_from_slice(numbers)?;
        self.says.push(says)?;
        self.firsts.push(frames + u64::from(repeat))?;
        self.repeats.push(repeat)?;
        Ok(())
    }

    /// How many frames the node has.
    pub fn frames(&self) -> u64
        requires { IsTable self.now }
        ensures { result ≡ node_frame_count (rows_of self.now) }
    {
        self.firsts[self.repeats.len()]
    }

    /// The flow of a tributary in the row of that number.
    fn flow(&self, row: usize, trib: usize) -> Flow
        requires table { IsTable self.now }
        requires row { row < length self.now.repeats.items }
        requires in_range { trib < self.now.tribs }
        ensures { result ≡ stored_flow self.now row trib }
    {
        self.says[row].flow(self.ratio, self.numbers[row * self.tribs + trib])
    }

    /// The count of a tributary in a frame, in bits.
    pub fn count(&self, frame: u64, trib: usize) -> u32
        requires table { IsTable self.now }
        requires scheduled { frame < node_frame_count (rows_of self.now) }
        requires in_range { trib < self.now.tribs }
        ensures { result ≡ node_counts (rows_of self.now) trib frame }
    {
        let row = row_with(&self.firsts, frame);
        self.flow(row, trib).count(frame - self.firsts[row])
    }

    /// Writes the count of each tributary in a frame, in bits, to the first places of a slice.
    pub fn counts(&self, frame: u64, into: &mut [u32])
        requires table { IsTable self.now }
        requires scheduled { frame < node_frame_count (rows_of self.now) }
        requires room { self.now.tribs ≤ length into.old }
        ensures counts { (trib : ℕ) → trib < self.now.tribs → slice_index into.new trib ≡ node_counts (rows_of self.now) trib frame }
        ensures others { (trib : ℕ) → self.now.tribs ≤ trib → slice_index into.new trib ≡ slice_index into.old trib }
    {
        let row = row_with(&self.firsts, frame);
        let place = frame - self.firsts[row];
        for trib in 0..self.tribs {
            into[trib] = self.flow(row, trib).count(place);
        }
    }

    /// How many bits of a tributary arrive in the frames before one, and its count in that frame, in bits.
    pub fn total_and_count(&self, frame: u64, trib: usize) -> (u64, u32)
        requires table { IsTable self.now }
        requires scheduled { frame < node_frame_count (rows_of self.now) }
        requires in_range { trib < self.now.tribs }
        ensures before { result.0 ≡ arrived (node_counts (rows_of self.now) trib) frame }
        ensures count { result.1 ≡ node_counts (rows_of self.now) trib frame }
    {
        let row = row_with(&self.firsts, frame);
        let place = frame - self.firsts[row];
        let flow = self.flow(row, trib);
        let before = self.before.as_slice()[row * self.tribs + trib];
        let so_far = flow.arrived(u128::from(place)) as u64;
        (before + so_far, flow.count(place))
    }

    /// How many bits of a tributary arrive in the first frames.
    pub fn total(&self, frames: u64, trib: usize) -> u64
        requires table { IsTable self.now }
        requires scheduled { frames ≤ node_frame_count (rows_of self.now) }
        requires in_range { trib < self.now.tribs }
        ensures { result ≡ arrived (node_counts (rows_of self.now) trib) frames }
    {
        if frames == 0 {
            return 0;
        }
        let row = row_with(&self.firsts, frames - 1);
        let before = self.before.as_slice()[row * self.tribs + trib];
        let so_far = self
            .flow(row, trib)
            .arrived(u128::from(frames - self.firsts[row]));
        before + so_far as u64
    }

    /// The row of that number, for a tributary.
    pub fn trib_row(&self, row: usize, trib: usize) -> TribRow
        requires table { IsTable self.now }
        requires row { row < length self.now.repeats.items }
        requires in_range { trib < self.now.tribs }
        ensures row { IsTribRow (node_counts (rows_of self.now) trib) (slice_index self.now.firsts.items row) (slice_index self.now.firsts.items (row + 1)) result }
        ensures fits { result.first + result.frames < 2 ^ 64 }
    {
        let place = row * self.tribs + trib;
        let firsts = self.firsts.as_slice();
        let sums = self.before.as_slice();
        TribRow {
            first: firsts[row],
            frames: self.repeats[row],
            before: sums[place],
            bits: sums[place + self.tribs] - sums[place],
            flow: self.flow(row, trib),
        }
    }
}
