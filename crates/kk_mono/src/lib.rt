//! The instances of a typed program and their ground constructors, and its limits on nodes and on instances.
#![tactic(auto)]

mod body;
mod build;
mod error;
mod keys;
mod numbers;
mod program;
mod search;
mod types;

pub use error::MonoError;
pub use program::{each_program_is_counted, instances};
