//! The routines that every image begins with: the start, cells, prints, reads and stops.
//!
//! Each is RV32IM code. A routine that returns is called with the way back in `x1`; it uses no stack.
//!
//! specs/Operations and specs/World say what assembler code does: its operations, by the table of instructions, and the routines
//! that it calls.
#![tactic(auto)]

mod assembly;
mod cells;
mod layout;
mod links;
mod process;
mod runtime;
mod streams;

pub use layout::Layout;
pub use process::Ending;
pub use runtime::text;
