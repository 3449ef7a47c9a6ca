//! The course of a node: its states, seconds, errors and cells.

ghost use Rattle.std.specs.Prelude.{◌≡◌, ◌<◌, ◌≤◌, ◌^◌, ℕ, List, [], ◌∷◌, ◌++◌, length, IfOk};
ghost use Rattle.pdh_spans.specs.Times.Turn.{Begins, Ends};
ghost use Rattle.pdh_timeline.specs.Marks.{Mark, is_errored, is_far};
ghost use Rattle.pdh_timeline.specs.Marks.Mark.{Turns, Errored, Far};
ghost use Rattle.pdh_track.specs.Standing.{rate_of};
ghost use Rattle.pdh_cells.specs.declared.cell.Code.{Code};
ghost use Rattle.pdh_cells.specs.Standing.{StandsFor as CellsStandFor};

use crate::errors::Errors;
use crate::node_health::CourseHealth;
use crate::sign::{Sign, sign_of};
use pdh_cells::{Cells, Code};
use pdh_placed::Placed;
use pdh_timeline::State;
use pdh_track::Track;
use std::alloc::{AllocError, Global};

/// Follows a node by its events. Only `open` takes memory.
#[derive(Drop)]
pub struct Course {
    track: Track,
    cells: Cells,
    near: Errors,
    far: Errors,
    ghost some: { 0 < rate_of track },
}

impl Course {
    ghost use Rattle.pdh_health.specs.Marking.{last_of, unless_at, marks_with, codes_with};
    ghost use Rattle.pdh_health.specs.Courses.{StandsFor, GoesOn, Closes, lanes_of};
    ghost use Rattle.pdh_health.specs.Findings.{IsFound};

    /// Nothing has come, on a line with so many bits in a second and in a block.
    pub fn open(alloc: Global, rate: u64, block: u32) -> Result<Course, AllocError>
        requires { 0 < rate }
        ensures { IfOk result (λ course. StandsFor course rate block [] [] 0) }
    {
        let cells = Cells::open(alloc)?;
        let track = Track::new(rate, block);
        let none = Errors::none();
        Ok(Course {
            track,
            cells,
            near: none,
            far: none,
        })
    }

    /// A state begins with the bit at a place.
    pub fn begin(&mut self, state: State, place: u64)
        ensures { GoesOn self.old place (λ marks. marks ++ Turns state (Begins place) ∷ []) (λ codes. codes) self.new }
    {
        self.track.begin(state, place);
    }

    // Shows the time that goes on up to a place in the cells, if a state stands.
    fn close(&mut self, state: State, place: u64)
        ensures cells { Closes self.old.track self.old.cells state place self.new.cells }
        ensures track { self.new.track ≡ self.old.track }
        ensures near { self.new.near ≡ self.old.near }
        ensures far { self.new.far ≡ self.old.far }
    {
        match self.track.begun(state) {
            Some(from) => self.cells.stood(state, from, place),
            None => {}
        }
    }

    // A state ends before the bit at a place.
    fn end(&mut self, state: State, place: u64)
        ensures { GoesOn self.old place (λ marks. marks ++ Turns state (Ends place) ∷ []) (λ codes. codes) self.new }
    {
        self.close(state, place);
        self.track.end(state, place);
    }

    // A block turns out to be errored at the bit at a place.
    fn errored(&mut self, place: u64)
        ensures { GoesOn self.old place (λ marks. marks ++ unless_at (last_of is_errored marks) (Errored place)) (λ codes. codes) self.new }
    {
        if self.near.has(place) {
            return;
        }
        let near = self.near.plus(place);
        self.near = near;
        self.track.errored(place);
        self.cells.errored(place);
    }

    // The far end tells an error at the bit at a place.
    fn told(&mut self, place: u64)
        ensures { GoesOn self.old place (λ marks. marks ++ unless_at (last_of is_far marks) (Far place)) (λ codes. codes) self.new }
    {
        if self.far.has(place) {
            return;
        }
        let far = self.far.plus(place);
        self.far = far;
        self.track.told(place);
        self.cells.told(place);
    }

    // The far end sends a code.
    fn coded(&mut self, code: Code)
        ensures { GoesOn self.old code.place (λ marks. marks) (λ codes. codes ++ code ∷ []) self.new }
    {
        self.cells.coded(code);
    }

    /// An event comes.
    pub fn note(&mut self, placed: &Placed)
        ensures { GoesOn self.old placed.now.place (λ marks. marks_with marks placed.now) (λ codes. codes_with codes placed.now) self.new }
    {
        let place = placed.place;
        match sign_of(placed.event.kind) {
            Sign::Begin(state) => self.begin(state, place),
            Sign::End(state) => self.end(state, place),
            Sign::Block => self.errored(place),
            Sign::Told => self.told(place),
            Sign::Coded => self.coded(Code {
                code: placed.event.value,
                place,
            }),
            Sign::Other => {}
        }
    }

    // The cells of all times that go on at the end.
    fn close_all(&mut self, bits: u64)
        ensures cells { (rate block : ℕ) (marks : List Mark) (codes : List Code) (place : ℕ) → StandsFor self.old rate block marks codes place
            → place < bits → CellsStandFor self.new.cells (lanes_of bits marks codes) bits }
        ensures track { self.new.track ≡ self.old.track }
        ensures near { self.new.near ≡ self.old.near }
        ensures far { self.new.far ≡ self.old.far }
    {
        self.close(State::Out, bits);
        self.close(State::Ais, bits);
        self.close(State::Alarm, bits);
    }

    /// What was found of it, where the line has so many bits.
    pub fn finish(&mut self, bits: u64) -> CourseHealth
        requires { 0 < bits }
        ensures { (rate block : ℕ) (marks : List Mark) (codes : List Code) (place : ℕ) → StandsFor self.old rate block marks codes place
            → place < bits → length marks ≤ 2 ^ 63 → IsFound rate block bits marks codes result }
    {
        self.close_all(bits);
        let out = self.track.sum(State::Out, bits);
        let ais = self.track.sum(State::Ais, bits);
        let alarm = self.track.sum(State::Alarm, bits);
        let seconds = self.track.tally(bits);
        let cells = self.cells.draw(bits);
        CourseHealth {
            out,
            ais,
            alarm,
            errored_blocks: self.near.count,
            far_errors: self.far.count,
            seconds,
            cells,
        }
    }
}
