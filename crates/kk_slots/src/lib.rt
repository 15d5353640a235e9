//! What the rows of a match ask of the values at several positions.
#![tactic(auto)]

mod problem;
pub mod row;

pub use problem::{Asked, Head, Problem, Slot};
