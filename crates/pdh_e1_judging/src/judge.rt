//! The judging of a 2048 kbit/s line by its multiframes.

ghost use Rattle.std.specs.Prelude.{◌≡◌, ◌≤◌, ◌<◌, ◌+◌, ◌^◌, Bool, true, false, List, [], ◌∷◌, length, take, drop, IfOk};
ghost use Rattle.pdh_g706.specs.Frames.{frames_of};
ghost use Rattle.pdh_g706.specs.Tracking.{multiframes_in, counted};
ghost use Rattle.pdh_g706.specs.Machine.{Fits, turn as turn_of};
ghost use Rattle.pdh_g706.specs.View.{phase};
ghost use Rattle.pdh_e1_judging.specs.Judged.{is_right as is_right_multiframe, with_multiframes, e1_judged_in};
ghost use Rattle.pdh_e1_judging.specs.Judging.{is_framed, more_bits, Follows, JudgingStands};

use crate::multiframes::is_right;
use pdh_edge::Failed;
use pdh_g706::E1Align;
use pdh_judging::Judged;
use pdh_nowhere::Nowhere;
use pdh_packed::Packed;
use pdh_watch::Quiet;
use std::alloc::{AllocError, Global};

// How many multiframes confirm an alignment, and aren't judged.
const CONFIRMING: u8 = 2;

// The alignments of a line, and what is judged of them.
#[derive(Drop)]
struct Judging {
    align: E1Align,
    // how many multiframes of the last alignment came, up to those that confirm it
    came: u8,
    judged: Judged,
}

// With one multiframe more, which is right or not.
fn with_one(judged: Judged, right: bool) -> Judged
    ensures { (frames : List (List Bool)) → right ≡ is_right_multiframe frames → result ≡ with_multiframes judged (frames ∷ []) }
{
    Judged {
        frames: judged.frames.saturating_add(1),
        right: judged.right.saturating_add(u64::from(right)),
    }
}

impl Judging {
    // Of a line that has no bit yet; or it finds no memory.
    fn open(alloc: Global) -> Result<Judging, AllocError>
        ensures { IfOk result (λ judging. JudgingStands judging.align judging.came judging.judged []) }
    {
        let align = E1Align::open(alloc)?;
        Ok(Judging {
            align,
            came: 0,
            judged: Judged {
                frames: 0,
                right: 0,
            },
        })
    }

    // Judges the multiframe that begins at this bit, behind those that confirm its alignment.
    fn judge(&mut self, line: &Packed, start: usize)
        requires inside { start + 4096 ≤ length line.now.bits }
        requires few { self.old.came ≤ 2 }
        ensures confirms { self.old.came < 2 → self.new ≡ record self.old { came = self.old.came + 1 } }
        ensures judges { self.old.came ≡ 2 → self.new ≡ record self.old {
          judged = with_multiframes self.old.judged (frames_of (take 4096 (drop start line.now.bits)) ∷ []);
        } }
    {
        if self.came < CONFIRMING {
            self.came += 1;
            return;
        }
        self.judged = with_one(self.judged, is_right(line, start));
    }

    // Before the next bit of a line: where multiframe alignment doesn't hold, no multiframe of the next alignment came. It answers
    // how many bits come behind the last multiframe that the bit may deliver: with multiframe alignment twelve frames of the next
    // one came too.
    fn begin(&mut self) -> usize
        ensures more { result ≡ more_bits (phase self.old.align) }
        ensures framed { is_framed (phase self.old.align) ≡ true → self.new.came ≡ self.old.came }
        ensures unframed { is_framed (phase self.old.align) ≡ false → self.new.came ≡ 0 }
        ensures same { self.new ≡ record self.old { came = self.new.came } }
    {
        if self.align.is_framed() {
            return 0;
        }
        self.came = 0;
        3072
    }

    // Takes a bit of the line, and answers how many multiframes it delivers.
    fn turn(&mut self, bit: bool) -> usize
        requires follows { (line : List Bool) × Follows (phase self.old.align) line
            × (length line + 1 < 2 ^ 64) × (self.old.align.counts.multiframes ≡ counted (multiframes_in line)) }
        requires room { self.old.align.held.capacity ≡ 16384 }
        ensures count { result ≡ (turn_of (phase self.old.align) bit).gained.multiframes }
        ensures phase { phase self.new.align ≡ (turn_of (phase self.old.align) bit).phase }
        ensures room { self.new.align.held.capacity ≡ self.old.align.held.capacity }
        ensures counts { (line : List Bool) → self.old.align.counts.multiframes ≡ counted (multiframes_in line)
            → self.new.align.counts.multiframes ≡ counted (multiframes_in line + (turn_of (phase self.old.align) bit).gained.multiframes) }
        ensures same { self.new ≡ record self.old { align = self.new.align } }
    {
        let was = self.align.delivered();
        match self.align.turn(bit, &mut Nowhere, &mut Quiet) {
            Ok(()) => {}
            // Nothing is kept of the payload.
            Err(Failed) => unreachable!(),
        }
        (self.align.delivered() - was) as usize
    }

    // Takes the next bit of a line, of which so many came, and judges the multiframes that it delivers.
    fn push(&mut self, line: &Packed, place: usize)
        requires inside { place < length line.now.bits }
        requires stands { JudgingStands self.old.align self.old.came self.old.judged (take place line.now.bits) }
        ensures { JudgingStands self.new.align self.new.came self.new.judged (take (place + 1) line.now.bits) }
    {
        // a place fits, since a length does
        let _fits = line.len();
        let more = self.begin();
        let count = self.turn(line.get(place));
        for number in 0..count {
            let start = place + 1 - more - 4096 * (count - number);
            self.judge(line, start);
        }
    }

    // Takes bits of a line from a place on that deliver no multiframe, none or more of them, and answers how many.
    fn skip(&mut self, line: &Packed, place: usize) -> usize
        requires inside { place ≤ length line.now.bits }
        requires stands { JudgingStands self.old.align self.old.came self.old.judged (take place line.now.bits) }
        ensures count { place + result ≤ length line.now.bits }
        ensures stands { JudgingStands self.new.align self.new.came self.new.judged (take (place + result) line.now.bits) }
    {
        let count = (line.len() - place).min(self.align.idle() as usize);
        self.align.hold(line, place, count);
        count
    }
}

/// Judges a line by its multiframes, from its first bit on; or it finds no memory.
pub fn judge_e1(alloc: Global, line: &Packed) -> Result<Judged, AllocError>
    ensures { IfOk result (λ judged. judged ≡ e1_judged_in line.now.bits) }
{
    let mut judging = Judging::open(alloc)?;
    let len = line.len();
    let mut done = judging.skip(line, 0);
    while done < len {
        judging.push(line, done);
        done += 1;
        done += judging.skip(line, done);
    }
    Ok(judging.judged)
}
