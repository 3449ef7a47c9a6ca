//! Claims on slips and the logs that are told of them.

ghost use Rattle.std.specs.Prelude.{◌≡◌, ◌∷◌, [], ◌++◌, false, true, OnOk, OnErr};
ghost use Rattle.pdh_edge.specs.Counts.{one_more};
ghost use Rattle.pdh_slips.specs.Logs.{slip_at};

use pdh_edge::Failed;
use pdh_shape::Place;
use pdh_slips::{KeptSlips, NoSlips, SlipLog};

/// A call that fails is one more in the count of faults.
pub fn failed_slip_not_counted<G: SlipLog>(log: &mut G, place: &Place) -> Result<(), Failed>
    ensures { OnErr result (G.log_faults log.new ≡ one_more (G.log_faults log.old)) }
{
    log.slip(true, place)
}

/// A slip that is kept as an overflow is the last of the list, as an overflow at its place.
pub fn overflow_told_as_underflow(log: &mut KeptSlips, place: &Place) -> Result<(), Failed>
    ensures { OnOk result (log.new.list.items ≡ log.old.list.items ++ slip_at true place.now ∷ []) }
{
    log.slip(true, place)
}

/// A slip that isn't refused is kept: it is the last of the list.
pub fn slip_lost_where_the_list_is_full(
    log: &mut KeptSlips,
    over: bool,
    place: &Place,
) -> Result<(), Failed>
    ensures { OnOk result (log.new.list.items ≡ log.old.list.items ++ slip_at over place.now ∷ []) }
{
    log.slip(over, place)
}

/// What takes no slips says so, so that the first event of a store ends a line.
pub fn takes_slips_and_is_told_none(log: &NoSlips) -> bool
    ensures { result ≡ false }
{
    log.takes()
}
