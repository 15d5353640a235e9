//! The run of a program by its definition: the store machine over the devices.
#![tactic(auto)]

mod evaluation;

pub use evaluation::evaluate;
