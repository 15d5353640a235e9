//! Tests of the devices: those in memory, whose failures are planned, and a source over a stream that fails on its way. Tests
//! alone.
#![tactic(auto)]

#[cfg(test)]
mod adapters;
#[cfg(test)]
mod memory;
