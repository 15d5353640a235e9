//! The outside in memory: sources, sinks and a store whose failures are planned.
//!
//! A plan lists the numbers, from 1, of a device's calls that are to fail. Its counts of calls and of faults are u64s
//! that stay at their last value.
#![tactic(auto)]

mod fault_plan;
mod sink;
mod source;
mod store;

pub use sink::{MemSink, TallySink};
pub use source::{MemSource, PlainSource};
pub use store::MemStore;
