//! Claims on what tells the events of a line.

ghost use Rattle.std.specs.Prelude.{◌≡◌, ◌≤◌, ◌+◌, Bool, false, true, Some, List, [], ◌∷◌, ◌++◌, drop, length, map, min, take};
ghost use Rattle.pdh_line.specs.Tracking.{Piece};
ghost use Rattle.pdh_line.specs.Tracking.Piece.{Gap, Delivered};
ghost use Rattle.pdh_watch.specs.declared.kind.TheConstants.Kind.{ALARM_ON};
ghost use Rattle.pdh_events.specs.Telling.{event_of, ones_at_end, tell};
ghost use Rattle.pdh_events.specs.Duties.{TellAlike, alarm_after, alarm_kinds, code_event, codes_answered, febe_kinds, frame_events, frames_of, is_odd, odd_before, parity_kinds};
ghost use Rattle.pdh_events.specs.Keeping.{CountsOnes, Remembers};
ghost use Rattle.pdh_events.specs.laws.QuietLaws.{IsCalm};

use pdh_events::{AisRun, FrameTeller};
use pdh_packed::Packed;
use pdh_shape::{Path, Shape};
use pdh_watch::Watch;

/// AIS of 512 ones doesn't begin with the first one of a line.
pub fn ais_at_the_first_one<W: Watch>(path: Path, watch: &mut W)
    ensures { W.saw watch.old [] watch.new }
{
    let mut run = AisRun::new(512);
    run.note(true, path, 0, watch);
}

/// A 0 with no one before it ends no AIS of 512 ones.
pub fn ais_ends_without_ais<W: Watch>(path: Path, watch: &mut W)
    ensures { W.saw watch.old [] watch.new }
{
    let mut run = AisRun::new(512);
    run.note(false, path, 0, watch);
}

/// The ones with which a line ends behind a piece are those of the line with the piece.
pub fn ais_run_forgotten_at_a_piece(run: &mut AisRun, bits: &Packed, from: usize, count: usize)
    requires { from + count ≤ length bits.now.bits }
    ensures { (line : List Bool) → CountsOnes run.old line → IsCalm run.old.long line (take count (drop from bits.now.bits))
        → run.new.run ≡ min (ones_at_end (line ++ take count (drop from bits.now.bits))) run.old.long }
{
    run.skip(bits, from, count);
}

/// Where there was no alarm before a frame and there is one after it, its first event is that an alarm begins.
#[tactic(auto, unfolding(pdh_events::specs::Duties::frame_events))]
pub fn alarm_kinds_exchanged<S: Shape, W: Watch>(
    teller: &mut FrameTeller<S>,
    frame: &Packed,
    odd: bool,
    path: Path,
    bit: u64,
    watch: &mut W,
)
    requires whole { length frame.now.bits ≡ S.LEN }
    requires odd { TellAlike S.shape (Some odd) (Some (is_odd S.shape frame.now.bits)) }
    ensures { (pieces : List Piece) → Remembers S.shape teller.old pieces → alarm_after S.shape (frames_of pieces) ≡ false
        → alarm_after S.shape (frames_of pieces ++ frame.now.bits ∷ []) ≡ true
        → W.saw watch.old (event_of path bit ALARM_ON ∷ tell path bit (parity_kinds S.shape (odd_before S.shape pieces) frame.now.bits ++ febe_kinds S.shape frame.now.bits)
        ++ map (code_event path bit) (codes_answered S.shape (frames_of pieces) frame.now.bits)) watch.new }
{
    teller.note(frame, odd, path, bit, watch);
}

/// Where there is an alarm before a frame and after it, the frame tells none.
#[tactic(auto, unfolding(pdh_events::specs::Duties::frame_events))]
pub fn alarm_noted_in_every_frame<S: Shape, W: Watch>(
    teller: &mut FrameTeller<S>,
    frame: &Packed,
    odd: bool,
    path: Path,
    bit: u64,
    watch: &mut W,
)
    requires whole { length frame.now.bits ≡ S.LEN }
    requires odd { TellAlike S.shape (Some odd) (Some (is_odd S.shape frame.now.bits)) }
    ensures { (pieces : List Piece) → Remembers S.shape teller.old pieces → alarm_after S.shape (frames_of pieces) ≡ true
        → alarm_after S.shape (frames_of pieces ++ frame.now.bits ∷ []) ≡ true
        → W.saw watch.old (tell path bit (parity_kinds S.shape (odd_before S.shape pieces) frame.now.bits ++ febe_kinds S.shape frame.now.bits)
        ++ map (code_event path bit) (codes_answered S.shape (frames_of pieces) frame.now.bits)) watch.new }
{
    teller.note(frame, odd, path, bit, watch);
}

/// A frame's events come in order: its alarm, parity, path parity, block errors, and then its codes, each once.
#[tactic(auto, unfolding(pdh_events::specs::Duties::frame_events))]
pub fn events_out_of_order<S: Shape, W: Watch>(
    teller: &mut FrameTeller<S>,
    frame: &Packed,
    odd: bool,
    path: Path,
    bit: u64,
    watch: &mut W,
)
    requires whole { length frame.now.bits ≡ S.LEN }
    requires odd { TellAlike S.shape (Some odd) (Some (is_odd S.shape frame.now.bits)) }
    ensures { (pieces : List Piece) → Remembers S.shape teller.old pieces
        → W.saw watch.old (tell path bit (alarm_kinds S.shape (frames_of pieces) frame.now.bits ++ parity_kinds S.shape (odd_before S.shape pieces) frame.now.bits ++ febe_kinds S.shape frame.now.bits)
        ++ map (code_event path bit) (codes_answered S.shape (frames_of pieces) frame.now.bits)) watch.new }
{
    teller.note(frame, odd, path, bit, watch);
}

/// The frame after another tells its events by that one too, so that its parity bits are those of the one before.
pub fn parity_kept_where_both_tell_it_alone<S: Shape, W: Watch>(
    teller: &mut FrameTeller<S>,
    one: &Packed,
    two: &Packed,
    odd: bool,
    odd_two: bool,
    path: Path,
    bit: u64,
    watch: &mut W,
)
    requires one { length one.now.bits ≡ S.LEN }
    requires two { length two.now.bits ≡ S.LEN }
    requires odd { TellAlike S.shape (Some odd) (Some (is_odd S.shape one.now.bits)) }
    requires odd_two { TellAlike S.shape (Some odd_two) (Some (is_odd S.shape two.now.bits)) }
    ensures { (pieces : List Piece) → Remembers S.shape teller.old pieces
        → W.saw watch.old (frame_events S.shape path bit pieces one.now.bits ++ frame_events S.shape path bit (pieces ++ Delivered one.now.bits ∷ []) two.now.bits) watch.new }
{
    teller.note(one, odd, path, bit, watch);
    teller.note(two, odd_two, path, bit, watch);
}

/// A frame after a loss tells its events as the first of its alignment, and so no parity.
pub fn parity_over_two_alignments<S: Shape, W: Watch>(
    teller: &mut FrameTeller<S>,
    frame: &Packed,
    odd: bool,
    path: Path,
    bit: u64,
    watch: &mut W,
)
    requires whole { length frame.now.bits ≡ S.LEN }
    requires odd { TellAlike S.shape (Some odd) (Some (is_odd S.shape frame.now.bits)) }
    ensures { (pieces : List Piece) → Remembers S.shape teller.old pieces
        → W.saw watch.old (frame_events S.shape path bit (pieces ++ Gap 0 ∷ []) frame.now.bits) watch.new }
{
    teller.lose();
    teller.note(frame, odd, path, bit, watch);
}
