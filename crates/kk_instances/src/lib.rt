//! The instances of a program mean what the program means.
#![tactic(auto)]

mod law;

pub use law::instances_mean_the_program;
