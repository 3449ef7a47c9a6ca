//! The runs of a frame, as they are found slot by slot.

ghost use Rattle.std.specs.Prelude.{◌≡◌, ◌<◌, ◌+◌, ◌^◌, if◌then◌else◌, IfOk};
ghost use Rattle.pdh_shape.specs.Payload.{is_payload as is_payload_role};
ghost use Rattle.pdh_runs.specs.Runs.{AreRuns};

use pdh_shape::{Role, Shape};
use std::alloc::{AllocError, Global};

/// Slots of a frame that follow each other: first those that carry no bit of a tributary, then
/// payload slots, which are information and justifiable slots.
#[derive(Clone, Copy, Debug, PartialEq, Eq)]
pub struct Run {
    /// The overhead slots.
    pub overhead: u32,
    /// The payload slots behind them.
    pub payload: u32,
}

impl Run {
    // The run with one slot more.
    fn with_slot(self, is_payload: bool) -> Run
        requires overhead { self.overhead + 1 < 2 ^ 32 }
        requires payload { self.payload + 1 < 2 ^ 32 }
        ensures overhead { result.overhead ≡ self.overhead + (if is_payload then 0 else 1) }
        ensures payload { result.payload ≡ self.payload + (if is_payload then 1 else 0) }
    {
        if is_payload {
            Run {
                overhead: self.overhead,
                payload: self.payload + 1,
            }
        } else {
            Run {
                overhead: self.overhead + 1,
                payload: self.payload,
            }
        }
    }
}

// Whether a slot of this role is a payload slot.
pub(crate) fn is_payload(role: Role) -> bool
    ensures { result ≡ is_payload_role role }
{
    matches!(role, Role::Info(_) | Role::Just(_))
}

/// The runs of a frame, in order, with one look at each slot; or the refusal of memory for them. Every
/// run but the first has overhead slots, and every run but perhaps the last has payload slots.
pub fn runs<S: Shape>(alloc: Global) -> Result<Vec<Run>, AllocError>
    ensures { IfOk result (λ runs. AreRuns S.shape runs.items) }
{
    let mut runs = Vec::new(alloc);
    let mut run = Run {
        overhead: 0,
        payload: 0,
    };
    for slot in 0..S::LEN {
        let is_payload = is_payload(S::role(slot));
        if !is_payload && run.payload > 0 {
            runs.push(run)?;
            run = Run {
                overhead: 1,
                payload: 0,
            };
        } else {
            run = run.with_slot(is_payload);
        }
    }
    runs.push(run)?;
    Ok(runs)
}
