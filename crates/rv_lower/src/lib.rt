//! Lines of assembler code over values, and how they are written.
#![tactic(auto)]

mod block;
mod lowering;
mod operation;

pub use block::{Goal, write_label, write_tail_call, write_value};
pub use lowering::{Lowering, Reads, Short, act, constant, copy, next, parameters, set, unary};
