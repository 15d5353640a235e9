//! Whether each match of a program is covered, and a pattern that no row matches where one is not.
#![tactic(auto)]

mod covering;
mod law;
mod spelling;

pub use covering::{CoverError, cover};
pub use law::{each_typed_program_is_decided, typed_matches_have_typed_rows};
pub use spelling::example_text;
