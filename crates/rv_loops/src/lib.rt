//! Loops whose test stands at their end: the placed form of a program, in another one that does the same with fewer jumps.
#![tactic(auto)]

mod head;
mod keeps;
mod rotating;

pub use keeps::{Execution, rotated_code_keeps_meaning};
pub use rotating::rotated;
