//! From the bytes of a text to its program and the program's instances, or to the one refusal of its first failure.
#![tactic(auto)]

mod accept;
mod judge;
mod law;

pub use judge::{each_text_is_judged, read};
pub use law::accepted_programs_are_typed;
