//! What the events of a sent line's top tell of what its frames say. Each function does nothing: what it ensures is the law.

ghost use Rattle.std.specs.Prelude.{◌≡◌, ℕ, ◌/◌, not, Bool, List, ◌∷◌, count_by};
ghost use Rattle.std.specs.List.{range_with_len};
ghost use Rattle.pdh_shape.specs.Frame.{FrameShape, IsFrame};
ghost use Rattle.pdh_line.specs.Sending.{Source, front, line_bit, frames_found};
ghost use Rattle.pdh_watch.specs.declared.kind.TheConstants.Kind.{ALARM_ON, FEBE};
ghost use Rattle.pdh_events.specs.Chain.{chain_events};
ghost use Rattle.pdh_eframes.specs.Plans.{e2, e3, e4};
ghost use Rattle.pdh_ds.specs.Plans.{ds2, ds3, ds3c};
ghost use Rattle.pdh_telling.specs.Top.{is_of_top};
ghost use Rattle.pdh_telling.specs.Saying.{SaysAlarm, SaysBlockErrors, SaysNoBlockErrors, alarm_begins};

/// Of the first bits of a sent line a receiver tells that an alarm begins as often as one begins with a frame that it finds.
pub fn a_sent_line_tells_its_alarms()
    ensures { (s : FrameShape) (below : List FrameShape) (source : Source) (bits : ℕ) → IsFrame s → SaysAlarm s →
        count_by (is_of_top ALARM_ON) (chain_events (s ∷ below) (front (line_bit s source) bits))
        ≡ count_by (alarm_begins (λ n. (source.says n).alarm)) (range_with_len 0 (frames_found (bits / s.len))) }
{}

/// It tells a far end block error for each frame that it finds and that says one. Of a line whose frames have no bits for
/// them it tells none, whatever the line is.
pub fn a_sent_line_tells_its_block_errors()
    ensures said { (s : FrameShape) (below : List FrameShape) (source : Source) (bits : ℕ) → IsFrame s → SaysBlockErrors s →
        count_by (is_of_top FEBE) (chain_events (s ∷ below) (front (line_bit s source) bits))
        ≡ count_by (λ n. not (source.says n).febe) (range_with_len 0 (frames_found (bits / s.len))) }
    ensures none { (s : FrameShape) (below : List FrameShape) (line : List Bool) → SaysNoBlockErrors s →
        count_by (is_of_top FEBE) (chain_events (s ∷ below) line) ≡ 0 }
{}

/// All frames of the standards say whether there is an alarm.
pub fn known_frames_say_alarms()
    ensures e2 { SaysAlarm e2 }
    ensures e3 { SaysAlarm e3 }
    ensures e4 { SaysAlarm e4 }
    ensures ds2 { SaysAlarm ds2 }
    ensures ds3 { SaysAlarm ds3 }
    ensures ds3c { SaysAlarm ds3c }
{}

/// Those of DS3 with C-bit parity say whether there is a far end block error, and no others do.
pub fn known_frames_say_block_errors()
    ensures ds3c { SaysBlockErrors ds3c }
    ensures e2 { SaysNoBlockErrors e2 }
    ensures e3 { SaysNoBlockErrors e3 }
    ensures e4 { SaysNoBlockErrors e4 }
    ensures ds2 { SaysNoBlockErrors ds2 }
    ensures ds3 { SaysNoBlockErrors ds3 }
{}
