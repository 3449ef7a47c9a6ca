//! Laws of sessions. Each function does nothing: what it ensures is the law.

ghost use Rattle.std.specs.Prelude.{◌≤◌};
ghost use Rattle.pdh_duplex.specs.Session.{IsSetting, Setting};
ghost use Rattle.pdh_duplex.specs.Laws.{DeliversUndisturbed, HasNoEvent, ReceivesDisturbed, TellsUndisturbed};

/// Each end has received the other's line as its script disturbs it.
pub fn each_end_receives_the_disturbed_line()
    ensures { (z : Setting) → IsSetting z → ReceivesDisturbed z }
{}

/// No store of either end overflows or underflows.
pub fn no_store_meets_an_event()
    ensures { (z : Setting) → HasNoEvent z }
{}

/// Where a script has no rows and there are three frames or more, the end that receives that line delivers all of them.
pub fn an_undisturbed_line_is_delivered()
    ensures { (z : Setting) → IsSetting z → 3 ≤ z.frames → DeliversUndisturbed z }
{}

/// Where a script has no rows and there are three frames or more, the end that receives that line is told of the other's
/// alarms and error ticks.
pub fn an_undisturbed_line_tells_what_was_said()
    ensures { (z : Setting) → IsSetting z → 3 ≤ z.frames → TellsUndisturbed z }
{}
