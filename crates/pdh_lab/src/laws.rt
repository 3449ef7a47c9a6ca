//! A law of drills. The function does nothing: what it ensures is the law.

ghost use Rattle.std.specs.Prelude.{ℕ, ◌≤◌};
ghost use Rattle.pdh_shape.specs.OwnNumbers.{most_frames};
ghost use Rattle.pdh_chain.specs.declared.chain.Chain.{Chain};
ghost use Rattle.pdh_lab.specs.Drill.{drill_of, IsInTime};

/// Every drill's leaves come back in order, and no later than the chain's delay.
pub fn drills_are_in_time()
    ensures { (chain : Chain) (seed frames : ℕ) → frames ≤ most_frames
        → IsInTime chain (drill_of chain seed frames) }
{}
