//! The store machine: what a program means, one step after another.
//!
//! It is plain and slow on purpose, since the compiler is held against it. Its definition is kk_source's `Step`.
#![tactic(auto)]

mod act;
mod arithmetic;
mod binding;
mod call;
mod cell;
mod frame;
mod free;
mod held;
mod machine;
mod matching;
mod meaning;
mod print;
mod resume;
mod turn;
mod value;

pub use meaning::Meaning;
pub use turn::Turn;
