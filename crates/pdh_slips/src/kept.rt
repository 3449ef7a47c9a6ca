//! A log that keeps its slips in a list.

ghost use Rattle.std.specs.Prelude.{◌≡◌, [], ◌∷◌, ◌++◌, OnOk, OnErr, IfOk};

use crate::{Slip, SlipLog};
use pdh_edge::Failed;
use pdh_shape::Place;
use std::alloc::{AllocError, Global};

/// Takes slips and keeps them in a list, so many at most: a call for one more fails, and so does one
/// for which no memory is found.
#[derive(Drop)]
pub struct KeptSlips {
    list: Vec<Slip>,
    most: usize,
    faults: u64,
}

impl KeptSlips {
    /// Keeps so many slips at most, and none so far; or it finds no memory for them.
    pub fn open(alloc: Global, most: usize) -> Result<KeptSlips, AllocError>
        ensures list { IfOk result (λ log. log.list.items ≡ []) }
        ensures faults { IfOk result (λ log. log.faults ≡ 0) }
    {
        Ok(KeptSlips {
            list: Vec::with_capacity(alloc, most)?,
            most,
            faults: 0,
        })
    }

    /// The slips, in order.
    pub fn slips(&self) -> &[Slip]
        ensures { result.now ≡ self.now.list.items }
    {
        &self.list
    }

    // Keeps one more, where there is room for it.
    fn keep(&mut self, slip: Slip) -> Result<(), Failed>
        ensures kept { OnOk result (self.new.list.items ≡ self.old.list.items ++ slip ∷ []) }
        ensures left { OnErr result (self.new.list.items ≡ self.old.list.items) }
        ensures faults { self.new.faults ≡ self.old.faults }
    {
        if self.list.len() >= self.most {
            return Err(Failed);
        }
        match self.list.push(slip) {
            Ok(()) => Ok(()),
            Err(_) => Err(Failed),
        }
    }
}

impl SlipLog for KeptSlips {
    ghost use Rattle.std.specs.Prelude.{true};
    ghost use Rattle.pdh_slips.specs.Logs.{Kept, KeptFront};
    ghost use Rattle.pdh_slips.specs.laws.LogLaws.{kept_nothing, kept_joined, front_joined};

    ghost takes = { true };

    ghost log_faults = { λ a. a.faults };

    ghost logged = { λ a slips b. Kept a.list.items a.faults slips b.list.items b.faults };

    ghost broken = { λ a slips b. KeptFront a.list.items a.faults slips b.list.items b.faults };

    ghost logged_nothing = { λ a. kept_nothing a.list.items a.faults };

    ghost logged_join = { λ a b c xs ys p q. kept_joined _ _ _ _ _ _ xs ys p q };

    ghost broken_join = { λ a b c xs ys p q. front_joined _ _ _ _ _ _ xs ys p q };

    ghost logged_faults = { λ a b xs p. p.counts };

    ghost broken_faults = { λ a b xs p. p.counts };

    fn takes(&self) -> bool {
        true
    }

    fn log_faults(&self) -> u64 {
        self.faults
    }

    fn slip(&mut self, over: bool, place: &Place) -> Result<(), Failed> {
        let slip = Slip {
            over,
            place: *place,
        };
        match self.keep(slip) {
            Ok(()) => Ok(()),
            Err(Failed) => {
                self.faults = self.faults.saturating_add(1);
                Err(Failed)
            }
        }
    }
}
