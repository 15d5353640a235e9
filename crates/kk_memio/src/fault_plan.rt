ghost use Rattle.std.specs.Prelude.{◌≡◌, IfOk};
ghost use Rattle.kk_base.specs.Faults.{Counts};
ghost use Rattle.kk_memio.specs.Plan.{unused, is_planned, after_call};
ghost use Rattle.kk_memio.specs.FaultPlan.{plan_of};

use kk_base::{FaultCount, NoMemory};
use std::alloc::Global;

/// Which calls of a device are to fail, by their numbers from 1, and how many were made and failed.
#[derive(Drop)]
pub(crate) struct FaultPlan {
    fails: Vec<u64>,
    calls: u64,
    faults: FaultCount,
}

impl FaultPlan {
    pub(crate) fn new(alloc: Global, fails: &[u64]) -> Result<Self, NoMemory>
        ensures { IfOk result (λ plan. plan_of plan ≡ unused fails.now) }
    {
        Ok(FaultPlan {
            fails: Vec::from_slice(alloc, fails)?,
            calls: 0,
            faults: FaultCount::new(),
        })
    }

    /// Whether the next call is to fail.
    pub(crate) fn is_next_planned(&self) -> bool
        ensures { result ≡ is_planned (plan_of self.now) }
    {
        self.fails.contains(&self.calls.saturating_add(1))
    }

    /// Counts a call, and whether it failed.
    pub(crate) fn count_call(&mut self, failed: bool)
        ensures plan { plan_of self.new ≡ after_call failed (plan_of self.old) }
        ensures faults { Counts failed (plan_of self.old).faults (plan_of self.new).faults }
    {
        self.calls = self.calls.saturating_add(1);
        self.faults.count_call(failed);
    }
}
