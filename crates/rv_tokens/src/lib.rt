//! The assembler code of a program with tokens, as it is written: its lines are those that rv_cells says, and proves to do what the
//! program does.
#![tactic(auto)]

mod block;
mod cells;
mod decide;
mod known;
mod token_block;
mod token_cells;
mod token_program;

pub use token_program::lower_tokened;
