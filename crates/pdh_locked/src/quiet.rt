//! How many next bits of a multiplexer without stores surely meet nothing, as its state tells: its frames are scheduled, and its
//! children meet nothing in the bits that these read.

ghost use Rattle.std.specs.Prelude.{◌≡◌, ◌<◌, ◌≤◌, ◌+◌, ◌*◌, ◌^◌, ℕ, true, slice_get, Some, IsSome};
ghost use Rattle.pdh_levels.specs.Levels.{level_at};
ghost use Rattle.pdh_line.specs.Paths.{steps_of};
ghost use Rattle.pdh_tx.specs.Meaning.{plan_in};
ghost use Rattle.pdh_tx.specs.Calls.{GoesFree};
ghost use Rattle.pdh_locked.specs.Children.{AreFed, HaveMadeSome, AreScheduled};

use crate::children::Children;
use pdh_clock::Schedule;
use pdh_edge::Feed;
use pdh_shape::{Path, Shape};
use pdh_slips::SlipLog;
use pdh_tx::Tx;

/// The most slots that are looked at for one answer, so that sums over them fit.
pub const MOST_ASKED: usize = 16_777_216;

/// Of how many frames so many slots from one on are, at most.
pub fn frames_of<S: Shape>(slot: u32, slots: usize) -> u64
    requires slot { slot < S.LEN }
    requires few { slots ≤ 2 ^ 24 }
    ensures all { slot + slots ≤ result * S.LEN }
    ensures few { result ≤ slots + 2 }
{
    let len = u64::from(S::LEN);
    (u64::from(slot) + slots as u64 + (len - 1)) / len
}

/// How many slots of a node from one on, up to so many, are slots of frames that are scheduled.
pub fn slots_scheduled<S: Shape>(
    path: Path,
    frame: u64,
    slot: u32,
    clock: &Schedule,
    most: usize,
) -> usize
    requires node { IsSome (level_at clock.now.levels (steps_of path)) }
    requires slot { slot < S.LEN }
    requires few { most ≤ 2 ^ 24 }
    ensures most { result ≤ most }
    ensures scheduled { AreScheduled clock.now S.shape path frame slot result }
{
    let wanted = frames_of::<S>(slot, most);
    let frames = clock.frames(&path).saturating_sub(frame).min(wanted);
    let slots = (frames * u64::from(S::LEN)).saturating_sub(u64::from(slot));
    slots.min(most as u64) as usize
}

impl<S: Shape, C: Tx> Children<S, C> {
    /// Whether so many next bits of each child surely meet nothing, and so bring no slip where logs of type `G` take slips.
    pub fn all_stay_free<F: Feed, G: SlipLog>(
        &self,
        bits: usize,
        clock: &Schedule,
        feed: &F,
    ) -> bool
        requires fed { AreFed self.now clock.now (F.inputs feed.now) }
        requires placed { HaveMadeSome self.now (plan_in clock.now G.takes) }
        ensures { result ≡ true → (j : ℕ) (child : _) → slice_get self.now.list.items j ≡ Some child
            → GoesFree C.meaning C.stands_at child (plan_in clock.now G.takes) bits (F.inputs feed.now) }
    {
        for trib in 0..S::TRIBS {
            if self.list[trib as usize].quiet::<F, G>(clock, feed, bits) < bits {
                return false;
            }
        }
        true
    }
}
