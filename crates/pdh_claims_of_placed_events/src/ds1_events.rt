//! Of a recorded DS1 line.

ghost use Rattle.std.specs.Prelude.{◌≡◌, ◌++◌, Bool, List, [], ◌∷◌, take};
ghost use Rattle.pdh_line.specs.Paths.{top};
ghost use Rattle.pdh_line.specs.Tracking.{track};
ghost use Rattle.pdh_events.specs.Acts.{alignment_kinds};
ghost use Rattle.pdh_events.specs.Telling.{ais_kinds, next_bit, tell};
ghost use Rattle.pdh_events.specs.laws.QuietLaws.{IsQuiet};
ghost use Rattle.pdh_ds1.specs.Superframe.{in_superframe};
ghost use Rattle.pdh_ds1_events.specs.Events.{superframe_events};

use pdh_ds1::InSuperframe;
use pdh_ds1_events::SuperframeLine;
use pdh_packed::Packed;
use pdh_placed::Recorded;
use pdh_watch::Watch;

/// No bit with an event is passed over, of AIS or of another kind.
pub fn skips_over_ais<P: InSuperframe>(line: &mut SuperframeLine<P>, bits: &Packed) -> usize
    requires { (past : List Bool) × ⟦<SuperframeLine<P> as Recorded>⟧.stands line.old past }
    ensures { (past : List Bool) → ⟦<SuperframeLine<P> as Recorded>⟧.stands line.old past
        → IsQuiet (superframe_events P.f_bits P.PLAN) past (take result bits.now.bits) }
{
    line.glide(bits, 0)
}

/// Of a line whose superframes haven't 24 frames, AIS and the alignment are told, and no check.
pub fn superframes_of_12_frames_checked<P: InSuperframe, W: Watch>(
    line: &mut SuperframeLine<P>,
    bit: bool,
    watch: &mut W,
)
    requires stands { (past : List Bool) × ⟦<SuperframeLine<P> as Recorded>⟧.stands line.old past }
    requires frames { P.PLAN.frames ≡ 12 }
    ensures { (past : List Bool) → ⟦<SuperframeLine<P> as Recorded>⟧.stands line.old past
        → let s = in_superframe P.f_bits P.PLAN in
        W.saw watch.old (tell top (next_bit past) (ais_kinds s.len past bit ++ alignment_kinds (track s past) (track s (past ++ bit ∷ [])) ++ [])) watch.new }
{
    line.push(bit, watch);
}
