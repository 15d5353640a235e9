//! Reuse specialisation: code with tokens whose constructions leave the fields that the token's cell has already. What it makes of
//! code is a function in specs/, which `run` computes; laws say that its runs are the same.
#![tactic(auto)]

mod block;
mod known;
mod law;
mod program;

pub use law::{
    respecialised_code_can_be_lowered, respecialised_code_has_its_form,
    respecialised_code_leaves_all_that_is_known, respecialised_code_runs_the_same,
    respecialised_code_takes_as_many_words,
};
pub use program::run;
