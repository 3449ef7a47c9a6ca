//! The plan by which calls of one kind fail.

ghost use Rattle.std.specs.Prelude.{◌≡◌, OnOk, OnErr};
ghost use Rattle.pdh_edge.specs.Plan.{no_plan, is_due, plan_after_call, plan_after_fail};

use std::alloc::{AllocError, Global};
use std::marker::Model;

// The calls of one kind: how many were made, and which of them are to fail.
#[derive(Drop)]
pub(crate) struct Plan {
    fails: Vec<u64>,
    made: u64,
}

impl Model for Plan {
    ghost use Rattle.pdh_edge.specs.Plan.{PlanState};

    ghost Value = { PlanState };

    ghost view = { λ p. record { fails = p.fails.items; made = p.made } };
}

impl Plan {
    pub(crate) fn new(alloc: Global) -> Plan
        ensures { result ≡ no_plan }
    {
        Plan {
            fails: Vec::new(alloc),
            made: 0,
        }
    }

    // Lets the call with that number, from 0, fail.
    pub(crate) fn fail(&mut self, number: u64) -> Result<(), AllocError>
        ensures ok { OnOk result (self.new ≡ plan_after_fail number self.old) }
        ensures err { OnErr result (self.new ≡ self.old) }
    {
        self.fails.push(number)?;
        Ok(())
    }

    // Counts a call, and answers whether it is to fail.
    pub(crate) fn count(&mut self) -> bool
        ensures due { result ≡ is_due self.old }
        ensures counted { self.new ≡ plan_after_call self.old }
    {
        let number = self.made;
        self.made = number.saturating_add(1);
        self.fails.iter().any(|fail| *fail == number)
    }
}
