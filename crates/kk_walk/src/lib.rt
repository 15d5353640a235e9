//! The walk over the body of a function: it makes a graph of the types of the body's parts.
#![tactic(auto)]

pub mod build;
mod expression;
mod instance;
mod pattern;
mod rows;
mod walk;

pub use walk::{Bound, Walk};
