//! Giving a receiver the bits of a list, with the events that they bring.

ghost use Rattle.std.specs.Prelude.{◌≡◌, Bool, List, OnOk, OnErr};
ghost use Rattle.pdh_edge.specs.Ports.{HasCause};
ghost use Rattle.pdh_watch.specs.Seen.{SawPart};
ghost use Rattle.pdh_rx.specs.Meaning.{HoldsAll, TakesBits, TakesPart};
ghost use Rattle.pdh_events.specs.Chain.{bits_events};

use crate::Rx;
use pdh_edge::{Drain, Failed};
use pdh_packed::Packed;
use pdh_watch::Watch;

/// Gives a receiver the bits of a list, and shows a watch the events that they bring. It fails only where the drain failed.
pub fn take_watched<R: Rx, D: Drain, W: Watch>(
    receiver: &mut R,
    bits: &Packed,
    drain: &mut D,
    watch: &mut W,
) -> Result<(), Failed>
    requires stands { (line : List Bool) × R.stands receiver.old line }
    requires lists { HoldsAll (R.meaning receiver.old).leaves (D.outputs drain.old) }
    ensures taken { OnOk result (TakesBits (R.meaning receiver.old) bits.now.bits (R.stands receiver.old) (R.stands receiver.new)
        (D.outputs drain.old) (D.outputs drain.new)) }
    ensures part { OnErr result (TakesPart (R.meaning receiver.old) bits.now.bits (R.stands receiver.old)
        (D.outputs drain.old) (D.outputs drain.new)) }
    ensures seen { OnOk result ((line : List Bool) → R.stands receiver.old line
        → W.saw watch.old (bits_events (R.meaning receiver.old).notes line bits.now.bits) watch.new) }
    ensures seen_err { OnErr result ((line : List Bool) → R.stands receiver.old line
        → SawPart W.saw watch.old (bits_events (R.meaning receiver.old).notes line bits.now.bits) watch.new) }
    ensures cause { HasCause (D.drain_faults drain.old) (D.drain_faults drain.new) result }
    ensures drained { D.drained drain.old drain.new }
    ensures same { R.meaning receiver.new ≡ R.meaning receiver.old }
{
    let len = bits.len();
    let mut done = receiver.glide(bits, 0, drain)?;
    while done < len {
        receiver.push(bits.get(done), drain, watch)?;
        done += 1;
        done += receiver.glide(bits, done, drain)?;
    }
    Ok(())
}
