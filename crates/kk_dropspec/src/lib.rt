//! Drop specialisation: counted code whose openings go by the count of the cell. What it makes of code is a function in specs/;
//! laws say that its runs are the same.
#![tactic(auto)]

mod copies;
mod law;
mod special;

pub use copies::{copied_call, copied_form};
pub use law::{
    specialised_code_can_be_lowered, specialised_code_ends_as_well, specialised_code_has_its_kinds,
    specialised_code_is_spent, specialised_code_opens_by_count, specialised_code_opens_no_more,
    specialised_code_runs_the_same, specialised_code_spends_its_tokens,
    specialised_code_takes_as_many_words,
};
pub use special::run;
