//! `clock check` and `clock make`: judging a schedule, and making one.

ghost use Rattle.std.specs.Prelude.{◌≡◌, ◌≤◌, count_by, ◌==◌, IfOk, IfErr, IsSome};
ghost use Rattle.pdh_levels.specs.Levels.{level_at};
ghost use Rattle.pdh_line.specs.Paths.{steps_of, path_of};
ghost use Rattle.pdh_chain.specs.Chains.{levels_of};
ghost use Rattle.pdh_making.specs.Clock.{first_outside_of, checked as checked_rows, made_text as text_made, rows_in_text, inside_says, outside_says, make_says, checking, making};
ghost use Rattle.pdh_runner.specs.Performing.{Performs};
ghost use Rattle.pdh_answers.specs.declared.answer.Stop.TheVariants.{Memory};
ghost use Rattle.pdh_shape.specs.OwnNumbers.{most_frames};

use crate::schedule::read_schedule;
use pdh_answers::{Done, File, Stop, chain_counted};
use pdh_chain::Chain;
use pdh_clock::{Bias, Outside, Schedule};
use pdh_edge::Shelf;
use pdh_levels::{level_of, node_at, node_count};
use pdh_runner::files::{append, size, start};
use pdh_shape::{MOST_FRAMES, Path};
use pdh_text::Text;
use std::alloc::Global;

// A tributary that isn't within the tolerance: its node, its number from 1, and the first run of frames that breaks it.
#[derive(Clone, Copy)]
struct OutOfTolerance {
    node: Path,
    trib: u8,
    run: Outside,
}

// The line of a schedule within the tolerance.
fn inside(chain: Chain) -> Done
    ensures { result ≡ inside_says chain }
{
    let mut text = Text::new();
    text.text("clock ");
    text.text(chain.name());
    text.text(": inside\n");
    Done::Line(text)
}

// The line of a tributary that isn't within the tolerance.
#[tactic(auto, using(pdh_text::proofs::Lengths::digits, pdh_text::proofs::Lengths::path_len))]
fn outside(chain: Chain, out: OutOfTolerance) -> Done
    ensures { result ≡ outside_says chain out }
{
    let mut text = Text::new();
    text.text("clock ");
    text.text(chain.name());
    text.text(": outside ");
    text.path(&out.node);
    text.text(" tributary ");
    text.number(u64::from(out.trib));
    text.text(" frames ");
    text.number(out.run.from);
    text.text(" to ");
    text.number(out.run.to);
    text.text(" sum ");
    text.number(out.run.sum);
    text.text("\n");
    Done::Line(text)
}

// The first tributary of a node that has a store and isn't within the tolerance.
fn outside_of(chain: Chain, clock: &Schedule, node: Path) -> Option<OutOfTolerance>
    requires levels { clock.now.levels ≡ levels_of chain }
    requires known { IsSome (level_at (levels_of chain) (steps_of node)) }
    requires plain { node ≡ path_of (steps_of node) }
    ensures { result ≡ first_outside_of clock.now (steps_of node) }
{
    let level = level_of(chain.levels(), &node);
    if level.locked {
        return None;
    }
    for index in 0..level.tribs {
        if let Err(run) = clock.within(&node, index) {
            let trib = index + 1;
            return Some(OutOfTolerance { node, trib, run });
        }
    }
    None
}

// The first tributary that isn't within the tolerance, or that all are.
fn checked(chain: Chain, clock: &Schedule) -> Done
    requires { clock.now.levels ≡ levels_of chain }
    ensures { result ≡ checked_rows chain clock.now.rows }
{
    for place in 0..node_count(chain.levels()) {
        if let Some(out) = outside_of(chain, clock, node_at(chain.levels(), place)) {
            return outside(chain, out);
        }
    }
    inside(chain)
}

/// Reads the schedule, and tells the first tributary that isn't within the tolerance, or that all are.
pub fn check<S: Shelf>(alloc: Global, chain: Chain, shelf: &mut S) -> Result<Done, Stop>
    ensures { Performs (checking chain) (S.state shelf.old) (S.state shelf.new) result }
{
    let bytes = size(shelf, File::Schedule)?;
    let clock = read_schedule(alloc, chain, shelf, bytes)?;
    Ok(checked(chain, &clock))
}

// The text of the schedule of so many frames.
fn made_text(alloc: Global, chain: Chain, frames: u64, bias: Bias) -> Result<Vec<u8>, Stop>
    requires { frames ≤ most_frames }
    ensures text { IfOk result (λ text. text.items ≡ text_made chain frames bias) }
    ensures err { IfErr result (λ stop. stop ≡ Memory) }
{
    let clock = Schedule::from_ppm(alloc, chain.levels(), frames, bias)?;
    Ok(clock.text(alloc)?)
}

// How many rows a text has.
fn row_count(text: &[u8]) -> u64
    ensures { result ≡ rows_in_text text.now }
{
    text.iter().filter(|byte| **byte == b'\n').count() as u64
}

// What the making says of so many rows.
fn says_made(chain: Chain, rows: u64) -> Done
    ensures { result ≡ make_says chain rows }
{
    Done::Line(chain_counted("clock ", chain, ": rows ", rows))
}

/// Makes the schedule of so many frames from the clock offsets, and writes its text.
pub fn make<S: Shelf>(
    alloc: Global,
    chain: Chain,
    frames: u64,
    bias: Bias,
    shelf: &mut S,
) -> Result<Done, Stop>
    ensures { Performs (making chain frames bias) (S.state shelf.old) (S.state shelf.new) result }
{
    if frames > MOST_FRAMES {
        return Err(Stop::ManyFrames(frames));
    }
    let text = made_text(alloc, chain, frames, bias)?;
    start(shelf, File::Schedule)?;
    append(shelf, File::Schedule, &text)?;
    Ok(says_made(chain, row_count(&text)))
}
