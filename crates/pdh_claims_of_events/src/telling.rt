//! Claims on what the events of a sent line tell of what its frames say.

ghost use Rattle.std.specs.Prelude.{◌≡◌, ◌/◌, ◌∷◌, ℕ, List, count_by, true};
ghost use Rattle.pdh_shape.specs.Frame.{FrameShape, IsFrame};
ghost use Rattle.pdh_line.specs.Sending.{Source, front, line_bit};
ghost use Rattle.pdh_watch.specs.declared.kind.TheConstants.Kind.{ALARM_ON, FEBE};
ghost use Rattle.pdh_events.specs.Chain.{chain_events};
ghost use Rattle.pdh_telling.specs.Top.{is_of_top};
ghost use Rattle.pdh_telling.specs.Saying.{SaysAlarm, SaysBlockErrors};

use pdh_telling::laws::{a_sent_line_tells_its_alarms, a_sent_line_tells_its_block_errors};

/// Of a line of three frames that say no block error none is told.
pub fn block_errors_where_none_are_said()
    ensures { (s : FrameShape) (below : List FrameShape) (source : Source) (bits : ℕ) → IsFrame s → SaysBlockErrors s → bits / s.len ≡ 3
        → ((n : ℕ) → (source.says n).febe ≡ true)
        → count_by (is_of_top FEBE) (chain_events (s ∷ below) (front (line_bit s source) bits)) ≡ 0 }
{
    a_sent_line_tells_its_block_errors();
}

/// Of a line of two whole frames, which are too few to find its alignment, no alarm is told.
pub fn frames_told_that_are_not_found()
    ensures { (s : FrameShape) (below : List FrameShape) (source : Source) (bits : ℕ) → IsFrame s → SaysAlarm s → bits / s.len ≡ 2
        → count_by (is_of_top ALARM_ON) (chain_events (s ∷ below) (front (line_bit s source) bits)) ≡ 0 }
{
    a_sent_line_tells_its_alarms();
}
