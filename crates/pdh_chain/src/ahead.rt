//! How far ahead a line surely meets nothing, no event and no slip of a store, as its sender tells when it is asked.

ghost use Rattle.std.specs.Prelude.{◌≡◌, ◌*◌, ◌-◌, ◌≤◌};
ghost use Rattle.pdh_edge.specs.Ports.{only_waiting};
ghost use Rattle.pdh_tx.specs.Meaning.{plan_in};
ghost use Rattle.pdh_tx.specs.Calls.{IsFed, StandsBy, GoesFree};
ghost use Rattle.pdh_chain.specs.Calls.{KeepsFree};

use pdh_clock::Schedule;
use pdh_edge::{Feed, Waiting};
use pdh_slips::SlipLog;
use pdh_tx::Tx;

// For how many frames a sender is asked at once, at most.
const MOST_FRAMES: u64 = 128;

// For how many frames it is asked by what waits, at least.
const LEAST_WAITING: u64 = 16;

/// What is known of the next bits of a line.
#[derive(Clone, Copy)]
pub struct Ahead {
    /// How many of them surely meet nothing.
    pub clear: usize,
    /// How many frames surely meet nothing and take bits that wait alone, so that no call for these can fail.
    pub waiting: u64,
    // for how many frames the sender is asked next: for one behind a frame that may meet something, and then for twice as many each time
    frames: u64,
}

// How many of the next frames, of so many at most, surely meet nothing and take bits that wait alone; or none, where these are few.
fn frames_waiting<T: Tx, F: Feed, G: SlipLog>(
    sender: &T,
    clock: &Schedule,
    len: u32,
    most: u64,
    feed: &mut F,
) -> u64
    requires few { most ≤ 128 }
    requires fed { IsFed (T.meaning sender.now) clock.now (F.inputs feed.old) }
    requires stands { StandsBy T.stands_at sender.now (plan_in clock.now G.takes) }
    ensures few { result ≤ most }
    ensures free { GoesFree T.meaning T.stands_at sender.now (plan_in clock.now G.takes) (result * len) (only_waiting (F.inputs feed.old) (F.waits feed.old)) }
    ensures same { feed.new ≡ feed.old }
{
    let mut frames = most;
    while frames >= LEAST_WAITING {
        let bits = frames as usize * len as usize;
        let waiting = Waiting::of(feed);
        if sender.quiet::<Waiting<F>, G>(clock, &waiting, bits) >= bits {
            return frames;
        }
        frames /= 2;
    }
    0
}

impl Ahead {
    /// What is known before the sender is asked.
    pub fn unknown() -> Ahead
        ensures clear { result.clear ≡ 0 }
        ensures waiting { result.waiting ≡ 0 }
    {
        Ahead {
            clear: 0,
            waiting: 0,
            frames: MOST_FRAMES,
        }
    }

    /// What is known where the sender is asked, if less than a frame of so many bits is known to meet nothing. So many frames are left
    /// of the line, whose stores slip where logs of type `G` take slips. Where no more than one frame is made at once, it isn't asked
    /// what waits.
    pub fn look<T: Tx, F: Feed, G: SlipLog>(
        self,
        sender: &T,
        clock: &Schedule,
        len: u32,
        left: u64,
        at_once: u64,
        feed: &mut F,
    ) -> Ahead
        requires fed { IsFed (T.meaning sender.now) clock.now (F.inputs feed.old) }
        requires stands { StandsBy T.stands_at sender.now (plan_in clock.now G.takes) }
        ensures clear { KeepsFree T.Tx sender.now (plan_in clock.now G.takes) self.clear result.clear (F.inputs feed.old) }
        ensures waiting { KeepsFree T.Tx sender.now (plan_in clock.now G.takes) (self.waiting * len) (result.waiting * len)
            (only_waiting (F.inputs feed.old) (F.waits feed.old)) }
        ensures enough { self.waiting * len ≤ self.clear → result.waiting * len ≤ result.clear }
        ensures same { feed.new ≡ feed.old }
    {
        if self.clear >= len as usize {
            return self;
        }
        let frames = self.frames.min(left).min(MOST_FRAMES);
        if at_once > 1 {
            let waiting = frames_waiting::<T, F, G>(sender, clock, len, frames, feed);
            if waiting > 0 {
                return Ahead {
                    clear: waiting as usize * len as usize,
                    waiting,
                    frames: self.frames.saturating_mul(2).min(MOST_FRAMES),
                };
            }
        }
        // what doesn't wait yet may wait soon, so it is asked again before long
        let soon = if at_once > 1 {
            LEAST_WAITING
        } else {
            MOST_FRAMES
        };
        self.look_clear::<T, F, G>(sender, clock, len as usize, frames.min(soon), feed)
    }

    // The same by what the lists hold, whether or not it waits.
    fn look_clear<T: Tx, F: Feed, G: SlipLog>(
        self,
        sender: &T,
        clock: &Schedule,
        len: usize,
        frames: u64,
        feed: &F,
    ) -> Ahead
        requires fed { IsFed (T.meaning sender.now) clock.now (F.inputs feed.now) }
        requires stands { StandsBy T.stands_at sender.now (plan_in clock.now G.takes) }
        ensures clear { KeepsFree T.Tx sender.now (plan_in clock.now G.takes) self.clear result.clear (F.inputs feed.now) }
        ensures waiting { result.waiting ≡ 0 }
    {
        let clear = sender.quiet::<F, G>(clock, feed, len.saturating_mul(frames as usize));
        if clear >= len {
            return Ahead {
                clear,
                waiting: 0,
                frames: self.frames.saturating_mul(2).min(MOST_FRAMES),
            };
        }
        let clear = if frames > 1 {
            sender.quiet::<F, G>(clock, feed, len)
        } else {
            0
        };
        Ahead {
            clear,
            waiting: 0,
            frames: 1,
        }
    }

    /// What is known where so many frames more are made, which have so many bits.
    pub fn after(self, frames: u64, bits: usize) -> Ahead
        ensures clear { result.clear ≡ self.clear - bits }
        ensures waiting { result.waiting ≡ self.waiting - frames }
    {
        Ahead {
            clear: self.clear.saturating_sub(bits),
            waiting: self.waiting.saturating_sub(frames),
            frames: self.frames,
        }
    }
}
