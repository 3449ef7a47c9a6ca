//! A law of the leaves' schedule. The function does nothing: what it ensures is the law.

ghost use Rattle.std.specs.Prelude.{ℕ, ◌*◌};
ghost use Rattle.pdh_clock.specs.Contents.{Contents};
ghost use Rattle.pdh_nesting.specs.Chains.{top_len};
ghost use Rattle.pdh_chain.specs.declared.chain.Chain.{Chain};
ghost use Rattle.pdh_chain.specs.Chains.{shapes_of};
ghost use Rattle.pdh_chain.specs.Calls.{IsScheduledWithin};
ghost use Rattle.pdh_patterns.specs.Leaves.{IsClockOf};

/// The schedule of the leaves is within the tolerance, and has all frames that its nodes begin.
pub fn made_schedules_are_within_tolerance()
    ensures { (chain : Chain) (frames : ℕ) (clock : Contents) → IsClockOf chain frames clock
        → IsScheduledWithin (shapes_of chain) clock (frames * top_len (shapes_of chain)) }
{}
