//! What is kept of a node.

ghost use Rattle.std.specs.Prelude.{◌≡◌, ◌<◌, ◌≤◌, ◌^◌, ℕ, if◌then◌else◌, List, [], ◌∷◌, ◌++◌, length, take, IfOk};
ghost use Rattle.std.specs.Option.{option_or};
ghost use Rattle.pdh_cells.specs.declared.cell.Code.{Code};
ghost use Rattle.pdh_placed.specs.declared.placed.Placed.{Placed};
ghost use Rattle.pdh_health.specs.declared.plan.NodePlan.{NodePlan};
ghost use Rattle.pdh_health.specs.Kept.{kept_codes};
ghost use Rattle.pdh_health.specs.Marking.{marks_of, codes_of, codes_with};
ghost use Rattle.pdh_health.specs.Findings.{IsFound};
ghost use Rattle.pdh_health.specs.Nodes.{is_alignment, is_late_by, early_bits_by, last_place, IsFoundOf, StandsFor};
ghost use Rattle.pdh_health.specs.Lines.{is_path, own_events, AreInOrder};

use crate::codes::FirstCodes;
use crate::course::Course;
use crate::node_health::{CourseHealth, NodeHealth, NodeNumbers};
use crate::plan::NodePlan;
use crate::sign::{Sign, sign_of};
use pdh_cells::Code;
use pdh_event_counts::Counts;
use pdh_placed::Placed;
use pdh_shape::Path;
use pdh_timeline::State;
use pdh_watch::Kind;
use std::alloc::{AllocError, Global};

// Whether two nodes stand at the same place.
pub(crate) fn is_same(a: Path, b: Path) -> bool
    ensures { result ≡ is_path a b }
{
    a.depth == b.depth && a.first == b.first && a.second == b.second
}

// The first alignment, with an event more.
fn first_with(first: Option<Placed>, placed: &Placed) -> Option<Placed>
    ensures { result ≡ option_or first (if is_alignment placed.now then Some placed.now else None) }
{
    match first {
        Some(first) => Some(first),
        None if placed.event.kind == Kind::ALIGNED => Some(*placed),
        None => None,
    }
}

// The first codes, with an event more.
fn codes_after(codes: FirstCodes, placed: &Placed) -> FirstCodes
    ensures { (all : List Code) → kept_codes codes ≡ take 3 all → kept_codes result ≡ take 3 (codes_with all placed.now) }
{
    match sign_of(placed.event.kind) {
        Sign::Coded => codes.plus(Code {
            code: placed.event.value,
            place: placed.place,
        }),
        _ => codes,
    }
}

/// Follows a node by its events. Only `open` takes memory.
#[derive(Drop)]
pub struct Node {
    plan: NodePlan,
    counts: Counts,
    // its first alignment
    first: Option<Placed>,
    codes: FirstCodes,
    // its course, if its first alignment comes as early as it does where the recording begins in mid frame,
    early: Course,
    // and else, where it is out of alignment from the beginning
    late: Course,
}

impl Node {
    /// No event has come, on a line with so many bits in a second.
    pub fn open(alloc: Global, rate: u64, plan: NodePlan) -> Result<Node, AllocError>
        requires { 0 < rate }
        ensures { IfOk result (λ node. StandsFor node rate plan []) }
    {
        let early = Course::open(alloc, rate, plan.block)?;
        let mut late = Course::open(alloc, rate, plan.block)?;
        late.begin(State::Out, 0);
        let counts = Counts::none();
        let codes = FirstCodes::none();
        Ok(Node {
            plan,
            counts,
            first: None,
            codes,
            early,
            late,
        })
    }

    /// Where it stands.
    pub fn path(&self) -> Path
        ensures { result ≡ self.now.plan.path }
    {
        self.plan.path
    }

    // An event of its own comes, not before the last.
    fn note(&mut self, placed: &Placed)
        ensures { (rate : ℕ) (plan : NodePlan) (events : List Placed) → StandsFor self.old rate plan events
            → last_place events ≤ placed.now.place → length events < 2 ^ 63 → StandsFor self.new rate plan (events ++ placed.now ∷ []) }
    {
        let counts = self.counts.plus(placed.event.kind);
        let first = first_with(self.first, placed);
        let codes = codes_after(self.codes, placed);
        self.counts = counts;
        self.first = first;
        self.codes = codes;
        self.early.note(placed);
        self.late.note(placed);
    }

    /// An event comes, its own or another node's.
    pub fn note_own(&mut self, placed: &Placed)
        ensures { (rate : ℕ) (plan : NodePlan) (events : List Placed) → StandsFor self.old rate plan (own_events plan events)
            → AreInOrder (events ++ placed.now ∷ []) → StandsFor self.new rate plan (own_events plan (events ++ placed.now ∷ [])) }
    {
        if !is_same(self.plan.path, placed.event.path) {
            return;
        }
        self.note(placed);
    }

    // Whether it was out of alignment from the beginning, where its line has so many bits.
    fn is_late(&self, bits: u64) -> bool
        ensures { result ≡ is_late_by self.now.plan bits self.now.first }
    {
        match self.first {
            Some(first) => first.event.bit >= self.plan.framing.latest_start(),
            None => bits >= self.plan.framing.shortest_line(),
        }
    }

    // How many bits show it as not yet aligned.
    fn early_bits(&self, is_late: bool) -> u64
        ensures { result ≡ early_bits_by is_late self.now.first }
    {
        match self.first {
            Some(first) if !is_late => first.place.max(1),
            _ => 0,
        }
    }

    // What was found of its course.
    fn course_found(&mut self, is_late: bool, bits: u64) -> CourseHealth
        requires { 0 < bits }
        ensures { (rate : ℕ) (plan : NodePlan) (events : List Placed) → StandsFor self.old rate plan events
            → last_place events < bits → length events < 2 ^ 63 → IsFound rate plan.block bits (marks_of is_late events) (codes_of events) result }
    {
        if is_late {
            return self.late.finish(bits);
        }
        self.early.finish(bits)
    }

    /// What was found of it, where the recording has so many bits and its receiver counted this.
    pub fn finish(mut self, bits: u64, numbers: &NodeNumbers) -> NodeHealth
        requires { 0 < bits }
        ensures { (rate : ℕ) (plan : NodePlan) (events : List Placed) → StandsFor self rate plan events
            → last_place events < bits → length events < 2 ^ 63 → IsFoundOf rate bits plan numbers.now events result }
    {
        let is_late = self.is_late(numbers.bits);
        let early_bits = self.early_bits(is_late);
        let aligned = self.first.is_some();
        let wrong = numbers.judged.saturating_sub(numbers.right);
        let bad = wrong.saturating_sub(self.counts.lost);
        let path = self.plan.path;
        let counts = self.counts;
        let codes = self.codes;
        let course = self.course_found(is_late, bits);
        NodeHealth {
            path,
            frames: numbers.frames,
            bad,
            counts,
            codes,
            aligned,
            too_short: !aligned && !is_late,
            early_bits,
            course,
        }
    }
}
