//! The numbers that are written in words of the command line.
#![tactic(auto)]

mod number;

pub use number::number_in;
