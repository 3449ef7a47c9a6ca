//! Of a recorded 2048 kbit/s line.

ghost use Rattle.std.specs.Prelude.{◌≡◌, ◌*◌, Bool, List, [], slice_get, OnOk, IfSome};
ghost use Rattle.pdh_g706.specs.Tracking.{multiframes_in, counted};

use pdh_e1_events::E1Line;
use pdh_placed::Recorded;
use pdh_rx::NodeCounts;
use std::alloc::AllocError;

/// Each delivered multiframe counts as 16 frames.
pub fn multiframes_counted_as_frames(
    line: &E1Line,
    counts: &mut Vec<NodeCounts>,
) -> Result<(), AllocError>
    requires { counts.old.items ≡ [] }
    ensures { OnOk result ((bits : List Bool) → ⟦<E1Line as Recorded>⟧.stands line.now bits
        → IfSome (slice_get counts.new.items 0) (λ own. own.frames ≡ counted (16 * multiframes_in bits))) }
{
    line.count_nodes(counts)
}
