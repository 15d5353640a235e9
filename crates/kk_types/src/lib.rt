//! The types of a program: the types that the parts of its functions are taken at, which are as general as can be, or the
//! first function that is not typed.
#![tactic(auto)]

mod error;
mod program;

pub use error::TypeError;
pub use program::{check, each_program_is_checked};
