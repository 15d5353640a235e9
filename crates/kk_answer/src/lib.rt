//! How a command came to its end: its status, and the line that tells it; and the line that tells what a generated program took.
#![tactic(auto)]

mod answer;
mod line;

pub use answer::{Answer, RunEnd, end_with, wants_memory};
pub use line::put_summary;
