//! The ones of a gap, given to the children in rounds: one to each in turn.

ghost use Rattle.std.specs.Prelude.{◌≡◌, true, map, OnErr};
ghost use Rattle.pdh_events.specs.Acts.{round_acts, rounds_acts};
ghost use Rattle.pdh_rx.specs.Node.{AreReady, PlaysUpTo, Acted, ActedUpTo};

use crate::Rx;
use crate::children::Children;
use crate::merging::{Split, give_in_room, give_loaded};
use pdh_edge::{Drain, Failed};
use pdh_shape::Shape;
use pdh_watch::Watch;

// Gives each child a one, in order.
fn push_round<S: Shape, C: Rx, D: Drain, W: Watch>(
    children: &mut Children<S, C>,
    drain: &mut D,
    watch: &mut W,
) -> Result<(), Failed>
    requires ready { AreReady C.stands C.meaning children.old (D.outputs drain.old) }
    ensures { ActedUpTo C.Rx D.Drain W.Watch (round_acts S.shape) children.old children.new drain.old drain.new watch.old watch.new result }
{
    for trib in 0..S::TRIBS {
        children.push(trib, true, drain, watch)?;
    }
    Ok(())
}

// Gives each child as many ones as a frame carries bits of it at least, bit by bit.
fn push_rounds<S: Shape, C: Rx, D: Drain, W: Watch>(
    children: &mut Children<S, C>,
    drain: &mut D,
    watch: &mut W,
) -> Result<(), Failed>
    requires ready { AreReady C.stands C.meaning children.old (D.outputs drain.old) }
    ensures { ActedUpTo C.Rx D.Drain W.Watch (rounds_acts S.shape S.LOW) children.old children.new drain.old drain.new watch.old watch.new result }
{
    for _round in 0..S::LOW {
        push_round::<S, C, D, W>(children, drain, watch)?;
    }
    Ok(())
}

// Gives each child as many ones as a frame carries bits of it at least, in rounds, as the bits of a
// frame come in turn. Where a put to a leaf fails, all ones before it were put
// and none behind it.
pub(crate) fn give_ones<S: Shape, C: Rx, D: Drain, W: Watch>(
    children: &mut Children<S, C>,
    split: &mut Split<S>,
    drain: &mut D,
    watch: &mut W,
) -> Result<(), Failed>
    requires ready { AreReady C.stands C.meaning children.old (D.outputs drain.old) }
    ensures acted { Acted C.Rx D.Drain W.Watch (rounds_acts S.shape S.LOW) children.old children.new drain.old drain.new watch.old watch.new result }
    ensures rounds { C.IS_LEAF ≡ true → OnErr result (PlaysUpTo C.stands W.saw (map C.meaning children.old) (rounds_acts S.shape S.LOW)
        children.old (D.outputs drain.old) (D.outputs drain.new) watch.old watch.new) }
{
    split.strip.load_ones();
    if children.have_room(drain, S::LOW as usize) {
        give_in_room::<S, C, D, W>(children, &mut split.strip, drain);
        return Ok(());
    }
    // leaves would put all of theirs at once
    let one_by_one = C::IS_LEAF;
    if one_by_one {
        return push_rounds::<S, C, D, W>(children, drain, watch);
    }
    give_loaded::<S, C, D, W>(children, split, false, drain, watch)
}
