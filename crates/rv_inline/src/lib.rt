//! Calls of small functions in line: from the assembler form of a program to one that does the same with fewer calls.
#![tactic(auto)]

mod counting;
mod inlining;
mod keeps;
mod leaf;

pub use inlining::in_line;
pub use keeps::{Execution, calls_in_line_keep_meaning};
