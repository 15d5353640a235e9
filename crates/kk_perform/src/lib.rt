//! The commands over the devices of the outside, and what each answers.
#![tactic(auto)]

mod bench;
mod commands;
mod perform;

pub use commands::kokarv;
