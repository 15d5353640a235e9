//! The braces and semicolons that the layout of a source text stands for.
//!
//! A line that is right of its block opens a block within it, a line at the block's column is its next item, and a line
//! left of it closes it. A line that goes on with the line before is no item.
#![tactic(auto)]

mod block;
mod kind;
mod state;

pub use state::laid_out;
