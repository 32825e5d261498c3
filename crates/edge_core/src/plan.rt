//! What a device in memory is to do.

ghost use Rattle.std.specs.Prelude.{◌≡◌, ◌↔◌, ◌⊎◌, ◌≤◌, ◌<◌, [], drop, vec_len, IsTrue, IsErr, OnErr, OnOk};
ghost use Rattle.edge_core.specs.Device.{HasRisen};
ghost use Rattle.edge_core.specs.Plan.{plan_of, FailsNext, cut_to, after_call, after_fault};

use crate::device::Failed;
use std::marker::Model;

/// Which calls of a device in memory fail, and how much the others move.
#[derive(Debug, Drop)]
pub(crate) struct Plan {
    cuts: Vec<usize>,
    used_cuts: usize,
    fails: Vec<u64>,
    calls: u64,
    faults: u64,
}

impl Model for Plan {
    ghost use Rattle.std.specs.Prelude.{◌≤◌, drop, vec_len};
    ghost use Rattle.edge_core.specs.Plan.{PlanState};

    ghost Value = { PlanState };

    ghost view = { λ plan. record {
      cuts = drop plan.used_cuts plan.cuts.items;
      fails = plan.fails.items;
      calls = plan.calls;
      faults = plan.faults;
    } };

    ghost invariant = { λ plan. plan.used_cuts ≤ vec_len plan.cuts };
}

impl Plan {
    pub(crate) fn new(cuts: Vec<usize>, fails: Vec<u64>) -> Self
        ensures { result ≡ plan_of cuts.items fails.items }
    {
        Plan {
            cuts,
            used_cuts: 0,
            fails,
            calls: 0,
            faults: 0,
        }
    }

    // Counts a call. It fails where it is to fail, and where it is refused.
    pub(crate) fn start_call(&mut self, is_refused: bool) -> Result<(), Failed>
        ensures fails { IsErr result ↔ (IsTrue is_refused ⊎ FailsNext self.old) }
        ensures counted { OnOk result (self.new ≡ after_call self.old) }
        ensures failed { OnErr result (self.new ≡ after_fault self.old) }
        ensures risen { OnErr result (HasRisen self.old.faults self.new.faults) }
    {
        let is_to_fail = self.is_next_to_fail();
        self.calls = self.calls.saturating_add(1);
        if is_refused || is_to_fail {
            self.faults = self.faults.saturating_add(1);
            return Err(Failed);
        }
        Ok(())
    }

    pub(crate) fn faults(&self) -> u64
        ensures { result ≡ self.now.faults }
    {
        self.faults
    }

    fn is_next_to_fail(&self) -> bool
        ensures { IsTrue result ↔ FailsNext self.now }
    {
        self.calls < u64::MAX && self.fails.contains(&(self.calls + 1))
    }

    // Uses up a cut, and says how many of `most` bytes it lets through.
    pub(crate) fn use_cut(&mut self, most: usize) -> usize
        ensures amount { result ≡ cut_to self.old.cuts most }
        ensures used { self.new ≡ record self.old { cuts = drop 1 self.old.cuts } }
    {
        match self.cuts.get(self.used_cuts) {
            Some(&cut) => {
                self.used_cuts += 1;
                most.min(cut.max(1))
            }
            None => most,
        }
    }
}
