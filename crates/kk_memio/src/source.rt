ghost use Rattle.std.specs.Prelude.{◌≡◌, ℕ, List, false, ◌++◌, ◌<◌, ◌≤◌, length, drop, All, option_map, IfOk};
ghost use Rattle.kk_base.specs.Faults.{Counts};
ghost use Rattle.kk_base.specs.Source.{given, next_failed, EndsAt, KeepsEnd};
ghost use Rattle.kk_memio.specs.Plan.{unused, is_planned, after_call};
ghost use Rattle.kk_memio.specs.FaultPlan.{plan_of};
ghost use Rattle.kk_memio.specs.Source.{PlannedSource, GivesAsPlanned, plain_source_state, planned_source_state};

use crate::fault_plan::FaultPlan;
use kk_base::{Next, NoMemory, Source};
use std::alloc::Global;
use std::marker::Model;

/// A source over bytes in memory that never fails.
#[derive(Drop)]
pub struct PlainSource {
    bytes: Vec<u8>,
    at: usize,
}

impl Model for PlainSource {
    ghost Value = { List ℕ };

    ghost view = { λ s. drop s.at s.bytes.items };

    ghost invariant = { λ s. s.at ≤ length s.bytes.items };
}

impl PlainSource {
    /// A source of these bytes.
    pub fn new(alloc: Global, bytes: &[u8]) -> Result<Self, NoMemory>
        ensures { IfOk result (λ source. source ≡ bytes.now) }
    {
        Ok(PlainSource {
            bytes: Vec::from_slice(alloc, bytes)?,
            at: 0,
        })
    }

    fn rest_bytes(&self) -> &[u8]
        ensures { result.now ≡ self.now }
    {
        &self.bytes.as_slice()[self.at..]
    }
}

impl Source for PlainSource {
    ghost state = { plain_source_state };

    fn next(&mut self) -> Next
        ensures content { (plain_source_state self.old).left ≡ option_map (λ rest. given result ++ rest) (plain_source_state self.new).left }
        ensures bytes { All (λ byte. byte < 256) (given result) }
        ensures end { EndsAt result ((plain_source_state self.old).left) }
        ensures keeps { KeepsEnd result (plain_source_state self.old).ended (plain_source_state self.new).ended }
        ensures faults { Counts (next_failed result) (plain_source_state self.old).faults (plain_source_state self.new).faults }
        ensures gives { GivesAsPlanned false result self.old self.new }
    {
        if self.at == self.bytes.len() {
            return Next::End;
        }
        let byte = self.bytes[self.at];
        self.at += 1;
        Next::Byte(byte)
    }
}

/// A source over bytes in memory. It fails exactly in the calls that are planned.
#[derive(Drop)]
pub struct MemSource {
    bytes: PlainSource,
    plan: FaultPlan,
}

impl Model for MemSource {
    ghost Value = { PlannedSource };

    ghost view = { λ s. record { left = s.bytes; plan = plan_of s.plan } };
}

impl MemSource {
    /// A source of these bytes. `fails` lists the numbers, from 1, of the calls of `next` that are to fail.
    pub fn new(alloc: Global, bytes: &[u8], fails: &[u64]) -> Result<Self, NoMemory>
        ensures { IfOk result (λ source. source ≡ record { left = bytes.now; plan = unused fails.now }) }
    {
        Ok(MemSource {
            bytes: PlainSource::new(alloc, bytes)?,
            plan: FaultPlan::new(alloc, fails)?,
        })
    }

    /// The bytes that are left.
    pub fn rest_bytes(&self) -> &[u8]
        ensures { result.now ≡ self.now.left }
    {
        self.bytes.rest_bytes()
    }
}

impl Source for MemSource {
    ghost state = { planned_source_state };

    fn next(&mut self) -> Next
        ensures content { (planned_source_state self.old).left ≡ option_map (λ rest. given result ++ rest) (planned_source_state self.new).left }
        ensures bytes { All (λ byte. byte < 256) (given result) }
        ensures end { EndsAt result ((planned_source_state self.old).left) }
        ensures keeps { KeepsEnd result (planned_source_state self.old).ended (planned_source_state self.new).ended }
        ensures faults { Counts (next_failed result) (planned_source_state self.old).faults (planned_source_state self.new).faults }
        ensures gives { GivesAsPlanned (is_planned self.old.plan) result self.old.left self.new.left }
        ensures counted { self.new.plan ≡ after_call (next_failed result) self.old.plan }
    {
        if self.plan.is_next_planned() {
            self.plan.count_call(true);
            Next::Failed
        } else {
            self.plan.count_call(false);
            self.bytes.next()
        }
    }
}
