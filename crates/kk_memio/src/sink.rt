ghost use Rattle.std.specs.Prelude.{◌≡◌, ℕ, ◌+◌, [], ◌++◌, ◌≤◌, vec_len, vec_capacity, option_map, IfOk};
ghost use Rattle.kk_base.specs.Faults.{Counts};
ghost use Rattle.kk_base.specs.Sink.{taken, put_failed, CutWithin};
ghost use Rattle.kk_memio.specs.Plan.{unused, is_planned, after_call};
ghost use Rattle.kk_memio.specs.FaultPlan.{plan_of};
ghost use Rattle.kk_memio.specs.Sink.{PlannedSink, TakesAsPlanned, planned_sink_state, tally_state, tally_after};

use crate::fault_plan::FaultPlan;
use kk_base::{NoMemory, Put, Sink};
use std::alloc::Global;
use std::marker::Model;

/// A sink in memory with a room that never grows. It fails exactly in the calls that are planned, which take nothing,
/// and where a piece passes the room, which is then filled.
#[derive(Drop)]
pub struct MemSink {
    bytes: Vec<u8>,
    room: usize,
    plan: FaultPlan,
}

impl Model for MemSink {
    ghost Value = { PlannedSink };

    ghost view = { λ s. record { held = s.bytes.items; room = s.room; plan = plan_of s.plan } };

    ghost invariant = { λ s. (vec_len s.bytes ≤ s.room) × (s.room ≤ vec_capacity s.bytes) };
}

impl MemSink {
    /// An empty sink for `room` bytes, taken now. `fails` lists the numbers, from 1, of the calls of `put` that are to
    /// fail.
    pub fn new(alloc: Global, room: usize, fails: &[u64]) -> Result<Self, NoMemory>
        ensures { IfOk result (λ sink. sink ≡ record { held = []; room = room; plan = unused fails.now }) }
    {
        Ok(MemSink {
            bytes: Vec::with_capacity(alloc, room)?,
            room,
            plan: FaultPlan::new(alloc, fails)?,
        })
    }

    /// The bytes that it has taken.
    pub fn held_bytes(&self) -> &[u8]
        ensures { result.now ≡ self.now.held }
    {
        self.bytes.as_slice()
    }
}

impl Sink for MemSink {
    ghost state = { planned_sink_state };

    fn put(&mut self, piece: &[u8]) -> Put
        ensures content { (planned_sink_state self.new).held ≡ option_map (λ before. before ++ taken result piece.now) (planned_sink_state self.old).held }
        ensures cut { CutWithin result piece.now }
        ensures faults { Counts (put_failed result) (planned_sink_state self.old).faults (planned_sink_state self.new).faults }
        ensures takes { TakesAsPlanned (is_planned self.old.plan) result piece.now self.old.held self.old.room }
        ensures counted { self.new.plan ≡ after_call (put_failed result) self.old.plan }
        ensures room { self.new.room ≡ self.old.room }
    {
        if self.plan.is_next_planned() {
            self.plan.count_call(true);
            return Put::Failed(0);
        }
        let free = self.room - self.bytes.len();
        if piece.len() <= free {
            self.plan.count_call(false);
            let _ = self.bytes.extend_from_slice(piece);
            Put::All
        } else {
            self.plan.count_call(true);
            let _ = self.bytes.extend_from_slice(&piece[..free]);
            Put::Failed(free)
        }
    }
}

/// A sink that never fails and keeps only the number of its bytes, which stays at the last value of a u64.
#[derive(Drop)]
pub struct TallySink {
    tally: u64,
}

impl Model for TallySink {
    ghost Value = { ℕ };

    ghost view = { λ s. s.tally };
}

impl TallySink {
    /// A sink that has taken no bytes. Takes no memory.
    pub fn new() -> Self
        ensures { result ≡ 0 }
    {
        TallySink { tally: 0 }
    }

    /// How many bytes it has taken.
    pub fn tally(&self) -> u64
        ensures { result ≡ self.now }
    {
        self.tally
    }
}

impl Sink for TallySink {
    ghost state = { tally_state };

    fn put(&mut self, piece: &[u8]) -> Put
        ensures content { (tally_state self.new).held ≡ option_map (λ before. before ++ taken result piece.now) (tally_state self.old).held }
        ensures cut { CutWithin result piece.now }
        ensures faults { Counts (put_failed result) (tally_state self.old).faults (tally_state self.new).faults }
        ensures all { result ≡ Put.All }
        ensures tally { self.new ≡ tally_after self.old piece.now }
    {
        self.tally = self.tally.saturating_add(piece.len() as u64);
        Put::All
    }
}
