ghost use Rattle.std.specs.Prelude.{◌≡◌};
ghost use Rattle.kk_base.specs.Faults.{Counts, count_after};

use std::marker::Model;

/// How many calls of a device have failed. It never falls, and stays at the last value of a u64.
#[derive(Drop)]
pub struct FaultCount {
    count: u64,
}

impl Model for FaultCount {
    ghost use Rattle.std.specs.Prelude.{ℕ};

    ghost Value = { ℕ };

    ghost view = { λ f. f.count };
}

impl FaultCount {
    /// The count before the first call.
    pub fn new() -> Self
        ensures { result ≡ 0 }
    {
        FaultCount { count: 0 }
    }

    /// Counts a call, where it failed.
    pub fn count_call(&mut self, failed: bool)
        ensures count { self.new ≡ count_after failed self.old }
        ensures counts { Counts failed self.old self.new }
    {
        self.count = self.count.saturating_add(u64::from(failed));
    }
}
