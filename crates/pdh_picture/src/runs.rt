//! Cells beside each other.

ghost use Rattle.std.specs.Prelude.{◌≡◌, ◌≤◌, ◌<◌, length, IfSome, MatchOption};
ghost use Rattle.pdh_picture.specs.Runs.{IsRun, first_drawn, leading};

/// Cells beside each other, from the first to the one behind the last.
#[derive(Clone, Copy)]
pub struct Run {
    /// The first.
    pub start: usize,
    /// The one behind the last.
    pub end: usize,
}

// How many cells are of a class before the first of another.
fn leading(classes: &[u8], class: u8) -> usize
    ensures exact { result ≡ leading class classes.now }
    ensures within { result ≤ length classes.now }
{
    classes.iter().take_while(|own| **own == class).count()
}

/// The first cells beside each other, from a cell on, of one class that isn't 0.
pub fn next_run(classes: &[u8], from: usize) -> Option<Run>
    requires { from ≤ length classes.now }
    ensures exact { MatchOption result (first_drawn classes.now from ≡ length classes.now) (IsRun classes.now from) }
    ensures order { IfSome result (λ run. (from ≤ run.start) × (run.start < run.end) × (run.end ≤ length classes.now)) }
{
    let start = from + leading(&classes[from..], 0);
    if start == classes.len() {
        return None;
    }
    let class = classes[start];
    let end = start + leading(&classes[start..], class);
    Some(Run { start, end })
}
