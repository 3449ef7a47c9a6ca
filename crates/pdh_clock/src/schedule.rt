//! Schedules.

use crate::beginning::{Short, came_in};
use crate::bias::Bias;
use crate::fault::ScheduleFault;
use crate::made::made_tree;
use crate::reading::read_rows;
use crate::tree::{Tree, counts_in};
use crate::writing::write_rows;
use pdh_levels::MOST_TRIBUTARIES;
use pdh_rows::{Outside, stays_inside, within_tolerance};
use pdh_shape::{Level, MOST_BYTES, Path};
use std::alloc::{AllocError, Global};
use std::marker::Model;

/// How many bits of each tributary arrive in each frame of each node of a chain.
#[derive(Drop)]
pub struct Schedule {
    tree: Tree,
}

impl Model for Schedule {
    ghost use Rattle.pdh_clock.specs.Contents.{Contents};
    ghost use Rattle.pdh_clock.specs.Stored.{IsTree, contents_of};

    ghost Value = { Contents };

    ghost view = { λ s. contents_of s.tree };

    ghost invariant = { λ s. IsTree s.tree };
}

impl Schedule {
    ghost use Rattle.std.specs.Prelude.{◌≡◌, ℕ, ◌<◌, ◌≤◌, ◌+◌, ◌-◌, ◌*◌, true, List, [], All, IsNone, IsSome, IfSome, IfOk, Ok, Some, option_map, length, slice_index};
    ghost use Rattle.pdh_shape.specs.Frame.{FrameShape};
    ghost use Rattle.pdh_shape.specs.declared.place.Level.{Level};
    ghost use Rattle.pdh_line.specs.Progress.{arrived};
    ghost use Rattle.pdh_line.specs.Tolerance.{IsWithin, StaysInside};
    ghost use Rattle.pdh_levels.specs.Levels.{AreLevels, level_at, stores_at, len_at, low_at, numbers_of, most_tributaries};
    ghost use Rattle.pdh_line.specs.Paths.{path_of, steps_of};
    ghost use Rattle.pdh_line.specs.Nodes.{width};
    ghost use Rattle.pdh_clock.specs.Judged.{Gives, schedule_of};
    ghost use Rattle.pdh_clock.specs.Contents.{IsRowOf, frames_of, counts, frame_count};
    ghost use Rattle.pdh_clock.specs.Begun.{taken as bits_taken, bits_entered, frames_begun, shortage, shortage_of};
    ghost use Rattle.pdh_rows.specs.Outside.{first_outside, run_in};
    ghost use Rattle.pdh_clock.specs.Made.{IsRated, made};
    ghost use Rattle.pdh_clock.specs.Rates.{IsWithinRates};
    ghost use Rattle.pdh_clock.specs.Written.{text_of, ReadsBack};
    ghost use Rattle.pdh_shape.specs.OwnNumbers.{most_frames};

    /// Reads a schedule's text. Faults are those of the first line that has one, and memory may run out besides.
    #[tactic(auto, unfolding(crate::specs::Judged::schedule_of))]
    pub fn read(alloc: Global, levels: &[Level], text: &[u8]) -> Result<Schedule, ScheduleFault>
        requires levels { AreLevels levels.now }
        requires rated { All IsRated levels.now }
        ensures rows { Gives (λ schedule. schedule.rows) result (schedule_of levels.now text.now) }
        ensures levels { IfOk result (λ schedule. schedule.levels ≡ levels.now) }
        ensures sound { IfOk result (λ schedule. All (IsRowOf levels.now) schedule.rows) }
    {
        if text.len() > MOST_BYTES {
            return Err(ScheduleFault::TooLong {
                len: text.len() as u64,
            });
        }
        let tree = read_rows(alloc, levels, text)?;
        Ok(Schedule { tree })
    }

    /// How many frames a node has.
    pub fn frames(&self, node: &Path) -> u64
        requires { IsSome (level_at self.now.levels (steps_of node.now)) }
        ensures { result ≡ frame_count self.now.rows (steps_of node.now) }
    {
        self.tree.table_of(node).frames()
    }

    /// How many bits of a tributary, counted from 0, arrive in a frame.
    pub fn count(&self, node: &Path, frame: u64, trib: u8) -> u32
        requires scheduled { frame < frame_count self.now.rows (steps_of node.now) }
        requires in_range { trib < stores_at self.now.levels (steps_of node.now) }
        ensures value { result ≡ counts self.now.rows (steps_of node.now) trib frame }
        ensures most { result ≤ len_at self.now.levels (steps_of node.now) }
    {
        self.tree.table_of(node).count(frame, usize::from(trib))
    }

    /// How many bits of each tributary that has a store arrive in a frame.
    pub fn counts(&self, node: &Path, frame: u64) -> [u32; MOST_TRIBUTARIES]
        requires node { IsSome (level_at self.now.levels (steps_of node.now)) }
        requires scheduled { frame < frame_count self.now.rows (steps_of node.now) }
        ensures few { stores_at self.now.levels (steps_of node.now) ≤ most_tributaries }
        ensures value { (trib : ℕ) → trib < stores_at self.now.levels (steps_of node.now)
            → slice_index result trib ≡ counts self.now.rows (steps_of node.now) trib frame }
        ensures most { (trib : ℕ) → trib < stores_at self.now.levels (steps_of node.now)
            → slice_index result trib ≤ len_at self.now.levels (steps_of node.now) }
    {
        counts_in(self.tree.table_of(node), frame)
    }

    /// A frame of a node brings no tributary more bits than the frame has. The function does nothing: what it ensures is the law.
    pub fn counts_fit(&self)
        ensures { (path : List ℕ) (trib frame : ℕ) → counts self.now.rows path trib frame ≤ len_at self.now.levels path }
    {
        let _tree = &self.tree;
    }

    /// How many bits of a tributary, counted from 0, arrive in the first frames.
    pub fn total(&self, node: &Path, frames: u64, trib: u8) -> u64
        requires scheduled { frames ≤ frame_count self.now.rows (steps_of node.now) }
        requires in_range { trib < stores_at self.now.levels (steps_of node.now) }
        ensures value { result ≡ arrived (counts self.now.rows (steps_of node.now) trib) frames }
        ensures most { result ≤ frames * len_at self.now.levels (steps_of node.now) }
    {
        self.tree.table_of(node).total(frames, usize::from(trib))
    }

    /// Whether a tributary, counted from 0, is within the tolerance over all frames of its node; else the run of frames
    /// that breaks it with the least end, and for this the least first frame.
    pub fn within(&self, node: &Path, trib: u8) -> Result<(), Outside>
        requires in_range { trib < stores_at self.now.levels (steps_of node.now) }
        ensures run { run_in result ≡ first_outside (low_at self.now.levels (steps_of node.now)) (counts self.now.rows (steps_of node.now) trib) (frame_count self.now.rows (steps_of node.now)) }
        ensures inside { (shape : FrameShape) → shape.low ≡ low_at self.now.levels (steps_of node.now) → result ≡ Ok tt → IsWithin shape (counts self.now.rows (steps_of node.now) trib) (frame_count self.now.rows (steps_of node.now)) }
        ensures outside { (shape : FrameShape) → shape.low ≡ low_at self.now.levels (steps_of node.now) → IsWithin shape (counts self.now.rows (steps_of node.now) trib) (frame_count self.now.rows (steps_of node.now)) → result ≡ Ok tt }
        ensures rates { (level : Level) → level_at self.now.levels (steps_of node.now) ≡ Some level → IsRated level → IsWithinRates level (counts self.now.rows (steps_of node.now) trib) (frame_count self.now.rows (steps_of node.now)) → result ≡ Ok tt }
    {
        let low = self.tree.level_of(node).low;
        within_tolerance(self.tree.table_of(node), usize::from(trib), low)
    }

    /// Whether the store of a tributary, counted from 0, which holds so many bits at the start of frame `first` of its node, surely
    /// stays away from both its ends up to the start of frame `end`, so that it meets no event.
    pub fn stays_inside(&self, node: &Path, trib: u8, fill: u64, first: u64, end: u64) -> bool
        requires scheduled { end ≤ frame_count self.now.rows (steps_of node.now) }
        requires in_range { trib < stores_at self.now.levels (steps_of node.now) }
        ensures { result ≡ true → StaysInside (low_at self.now.levels (steps_of node.now)) (counts self.now.rows (steps_of node.now) trib) first fill (end - first) }
    {
        let low = self.tree.level_of(node).low;
        let table = self.tree.table_of(node);
        stays_inside(table, usize::from(trib), low, fill, first, end)
    }

    /// How many bits of a tributary, counted from 0, come into its store while its node's line goes from so many bits to so many.
    pub fn arriving(&self, node: &Path, trib: u8, from: u128, to: u128) -> u128
        requires in_range { trib < stores_at self.now.levels (steps_of node.now) }
        requires later { from ≤ to }
        requires scheduled { to ≤ frame_count self.now.rows (steps_of node.now) * len_at self.now.levels (steps_of node.now) }
        ensures { (level : Level) → level_at self.now.levels (steps_of node.now) ≡ Some level
            → result + bits_taken level trib (counts self.now.rows (steps_of node.now) trib) from
            ≡ bits_taken level trib (counts self.now.rows (steps_of node.now) trib) to }
    {
        let len = self.tree.level_of(node).len;
        let table = self.tree.table_of(node);
        came_in(table, len, trib, to) - came_in(table, len, trib, from)
    }

    /// The first node that has fewer frames than it begins while the top makes so many. A node comes before those
    /// below it. Numbers that its path doesn't use are 0.
    pub fn short(&self, top_frames: u64) -> Option<Short>
        requires { top_frames ≤ frame_count self.now.rows [] }
        ensures short { option_map shortage_of result ≡ shortage self.now top_frames }
        ensures plain { IfSome result (λ short. short.node ≡ path_of (steps_of short.node)) }
    {
        self.tree.short(top_frames)
    }

    /// How many frames a node begins while the top makes so many.
    pub fn begun(&self, node: &Path, top_frames: u64) -> u64
        requires node { IsSome (level_at self.now.levels (steps_of node.now)) }
        requires enough { IsNone (shortage self.now top_frames) }
        ensures { result ≡ frames_begun self.now top_frames (steps_of node.now) }
    {
        self.tree.begun(node, top_frames)
    }

    /// How many bits of a leaf, counted from 0, enter while the top makes so many frames: none where the leaf's node begins
    /// no frame, else its lead and what arrives in the frames that the node begins; or what these frames carry, where the node
    /// has no stores.
    pub fn entered(&self, leaf: u32, top_frames: u64) -> u128
        requires leaf { leaf < width (numbers_of self.now.levels) }
        requires enough { IsNone (shortage self.now top_frames) }
        ensures { result ≡ bits_entered self.now top_frames leaf }
    {
        self.tree.entered(leaf, top_frames)
    }

    /// Makes the schedule of so many frames of the top, and of as many of each other node as it begins in their time, in
    /// which every tributary brings the whole bits of its own clock. Clocks are off by as many parts per million as the
    /// levels say. Where the top has no stores, its frames have no counts, and its tributaries' clock is its own.
    pub fn from_ppm(
        alloc: Global,
        levels: &[Level],
        frames: u64,
        bias: Bias,
    ) -> Result<Schedule, AllocError>
        requires levels { AreLevels levels.now }
        requires rated { All IsRated levels.now }
        requires few { frames ≤ most_frames }
        ensures levels { IfOk result (λ schedule. schedule.levels ≡ levels.now) }
        ensures frames { IfOk result (λ schedule. (path : List ℕ) → frames_of schedule.rows path ≡ made levels.now bias frames path) }
        ensures sound { IfOk result (λ schedule. All (IsRowOf levels.now) schedule.rows) }
        ensures top { IfOk result (λ schedule. frame_count schedule.rows [] ≡ frames) }
        ensures enough { IfOk result (λ schedule. IsNone (shortage schedule frames)) }
        ensures within { IfOk result (λ schedule. (path : List ℕ) (trib : ℕ) (shape : FrameShape) → trib < stores_at levels.now path → shape.low ≡ low_at levels.now path → IsWithin shape (counts schedule.rows path trib) (frame_count schedule.rows path)) }
    {
        let tree = made_tree(alloc, levels, frames, bias)?;
        Ok(Schedule { tree })
    }

    /// Writes the schedule: the nodes in order, a node before those below it, and one row for each longest run of equal frames.
    pub fn text(&self, alloc: Global) -> Result<Vec<u8>, AllocError>
        ensures text { IfOk result (λ text. text.items ≡ text_of self.now) }
        ensures read_back { IfOk result (λ text. ReadsBack self.now text.items) }
    {
        write_rows(alloc, &self.tree)
    }
}
