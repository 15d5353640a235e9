//! The commands of the program: what the words of its line ask for.
#![tactic(auto)]

mod application;
mod command;
mod words;

pub use command::{Command, Generation, RunOptions, Sizes};
pub use words::command_in;
