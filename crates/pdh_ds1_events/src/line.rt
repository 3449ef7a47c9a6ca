//! A recorded DS1 line in superframes.

ghost use Rattle.std.specs.Prelude.{◌≡◌, ◌≤◌, ◌+◌, ◌++◌, List, Bool, [], length, take, drop, IfOk};
ghost use Rattle.pdh_events.specs.laws.QuietLaws.{IsQuiet};
ghost use Rattle.pdh_ds1_events.specs.Events.{superframe_events};
ghost use Rattle.pdh_align.specs.Aligning.{StandsFor};
ghost use Rattle.pdh_ds1.specs.Superframe.{in_superframe};
ghost use Rattle.pdh_ds1_events.specs.Line.{Idles, superframe_meaning};

use crate::checker::Checker;
use pdh_align::Aligner;
use pdh_ds1::{InSuperframe, Superframe};
use pdh_events::AisRun;
use pdh_judging::{Judged, judged_after};
use pdh_packed::Packed;
use pdh_placed::Recorded;
use pdh_rx::{NodeCounts, frames_after};
use pdh_shape::TOP;
use pdh_watch::Watch;
use std::alloc::{AllocError, Global};

/// A recorded DS1 line whose superframes have one plan. Only `open` takes memory.
#[derive(Drop)]
pub struct SuperframeLine<P: InSuperframe> {
    aligner: Aligner<Superframe<P>>,
    ais: AisRun,
    checker: Checker<P>,
    // the number of the next bit, which stands at `u64::MAX`
    bits: u64,
    superframes: u64,
    judged: Judged,
}

// Lets an aligner take bits from a place on, so many at most, and answers how many: positions of a gap that a search passes over,
// or bits up to the one at which superframes end.
fn go_on<P: InSuperframe>(
    aligner: &mut Aligner<Superframe<P>>,
    bits: &Packed,
    from: usize,
    most: usize,
) -> usize
    requires { from + most ≤ length bits.now.bits }
    ensures most { result ≤ most }
    ensures idles { (line : List Bool) → StandsFor (in_superframe P.f_bits P.PLAN) aligner.old line
        → Idles (in_superframe P.f_bits P.PLAN) aligner.new (take result (drop from bits.now.bits)) line }
{
    let passed = aligner.pass(bits, from, most);
    if passed > 0 {
        return passed;
    }
    aligner.take(bits, from, most)
}

impl<P: InSuperframe> SuperframeLine<P> {
    /// A line that has no bit yet; or it finds no memory.
    pub fn open(alloc: Global) -> Result<SuperframeLine<P>, AllocError>
        ensures stands { IfOk result (λ line. ⟦<SuperframeLine<P> as Recorded>⟧.stands line []) }
        ensures meaning { IfOk result (λ line. ⟦<SuperframeLine<P> as Recorded>⟧.meaning line ≡ superframe_meaning P.f_bits P.PLAN) }
    {
        let aligner = Aligner::open(alloc)?;
        let checker = Checker::open(alloc)?;
        Ok(SuperframeLine {
            aligner,
            ais: AisRun::new(P::PLAN.len),
            checker,
            bits: 0,
            superframes: 0,
            judged: Judged {
                frames: 0,
                right: 0,
            },
        })
    }

    // Takes bits from a place on, none or more of those that show nothing, and answers how many.
    fn idle(&mut self, bits: &Packed, from: usize) -> usize
        requires { from ≤ length bits.now.bits }
        ensures count { from + result ≤ length bits.now.bits }
        ensures stands { (line : List Bool) → ⟦<SuperframeLine<P> as Recorded>⟧.stands self.old line
            → ⟦<SuperframeLine<P> as Recorded>⟧.stands self.new (line ++ take result (drop from bits.now.bits)) }
        ensures quiet { (line : List Bool) → ⟦<SuperframeLine<P> as Recorded>⟧.stands self.old line
            → IsQuiet (superframe_events P.f_bits P.PLAN) line (take result (drop from bits.now.bits)) }
    {
        // a run of ones is sought no further than the aligner may go
        let most = (bits.len() - from).min(P::PLAN.len as usize);
        let calm = self.ais.calm(bits, from, most);
        let count = go_on::<P>(&mut self.aligner, bits, from, calm);
        self.ais.skip(bits, from, count);
        self.bits = self.bits.saturating_add(count as u64);
        count
    }
}

impl<P: InSuperframe> Recorded for SuperframeLine<P> {
    ghost use Rattle.pdh_ds1_events.specs.Line.{LineStands, superframe_meaning};

    ghost stands = { λ l line. LineStands P.f_bits P.PLAN l.aligner l.ais l.checker l.bits l.superframes l.judged line };

    ghost meaning = { λ l. superframe_meaning P.f_bits P.PLAN };

    fn push<W: Watch>(&mut self, bit: bool, watch: &mut W) {
        let number = self.bits;
        self.bits = number.saturating_add(1);
        self.ais.note(bit, TOP, number, watch);
        let step = self.aligner.push(bit);
        self.superframes = frames_after(step, self.superframes);
        self.judged = judged_after(self.judged, step, &self.aligner);
        self.checker.act(&self.aligner, step, number, watch);
    }

    fn glide(&mut self, bits: &Packed, from: usize) -> usize {
        let len = bits.len();
        let mut done = 0;
        while from + done < len {
            let count = self.idle(bits, from + done);
            done += count;
            if count == 0 {
                return done;
            }
        }
        done
    }

    fn count_nodes(&self, counts: &mut Vec<NodeCounts>) -> Result<(), AllocError> {
        counts.push(NodeCounts {
            path: TOP,
            bits: self.bits,
            frames: self.superframes,
            judged: self.judged,
        })?;
        Ok(())
    }
}
