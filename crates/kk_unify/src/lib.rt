//! Types of program text as a graph of numbered nodes: nodes are added, two of them are made one type, and in the end
//! each has its principal type.
#![tactic(auto)]

mod graph;
mod join;
mod law;
mod node;
mod solve;
mod walk;

pub use graph::Graph;
pub use law::{graphs_are_decided, obeying_is_local};
pub use solve::Solution;
