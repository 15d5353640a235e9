//! A simulator of RV32IM: it loads an image and runs its words over a source and a sink.
#![tactic(auto)]

mod area;
mod halt;
mod machine;
mod memory;
mod registers;

pub use halt::Halt;
pub use machine::Machine;
