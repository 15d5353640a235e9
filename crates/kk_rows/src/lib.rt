//! Whether the rows of a match are covered, and a pattern that no row matches where they are not.
#![tactic(auto)]

mod example;
mod finding;
mod rows;
mod settling;
mod table;
mod turning;

pub use finding::uncovered;
