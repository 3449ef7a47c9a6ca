//! `drill`: a chain tested with itself.

ghost use Rattle.std.specs.Prelude.{◌≡◌, ◌≤◌, ◌++◌, length};
ghost use Rattle.pdh_edge.specs.Files.{ShelfState};
ghost use Rattle.pdh_runner.specs.Performing.{Performs};
ghost use Rattle.pdh_making.specs.Drill.{drill_text, drill_says, drilling};

use pdh_answers::{Done, Stop};
use pdh_chain::Chain;
use pdh_lab::Drill;
use pdh_shape::MOST_DRILLED;
use pdh_text::Text;
use std::alloc::Global;

// Appends the report of a drill.
#[tactic(auto, using(pdh_text::proofs::Lengths::digits))]
fn add_report(text: &mut Text, report: Drill)
    requires { length text.old ≤ 150 }
    ensures added { text.new ≡ text.old ++ drill_text report }
    ensures short { length text.new ≤ 300 }
{
    text.number(u64::from(report.leaves));
    text.text(" in ");
    text.number(report.entered);
    text.text(" out ");
    text.number(report.out);
    text.text(" equal ");
    text.number(u64::from(report.equal));
    text.text(" late ");
    text.number(report.late);
}

// The line of a drill.
#[tactic(auto, using(pdh_text::proofs::Lengths::digits))]
fn says(chain: Chain, seed: u64, frames: u64, report: Drill) -> Done
    ensures { result ≡ drill_says chain seed frames report }
{
    let mut text = Text::new();
    text.text("drill ");
    text.text(chain.name());
    text.text(" seed ");
    text.number(seed);
    text.text(" frames ");
    text.number(frames);
    text.text(": leaves ");
    add_report(&mut text, report);
    text.text("\n");
    Done::Line(text)
}

/// Makes a line of so many frames from test patterns, takes it apart again, and answers what came back. No file is looked at.
pub fn drill(alloc: Global, chain: Chain, seed: u64, frames: u64) -> Result<Done, Stop>
    requires { seed ≤ 999999999 }
    ensures { (state : ShelfState) → Performs (drilling chain seed frames) state state result }
{
    if frames > MOST_DRILLED {
        return Err(Stop::ManyFrames(frames));
    }
    let report = pdh_lab::drill(alloc, chain, seed, frames)?;
    Ok(says(chain, seed, frames, report))
}
