//! Reuse: counted code whose constructions take the cells that openings have freed. What it makes of code is a function in specs/,
//! which `run` computes; laws say that its runs are the same.
#![tactic(auto)]

mod calls;
mod following;
mod law;
mod pairing;
mod program;
mod slots;

pub use law::{
    paired_code_can_be_lowered, paired_code_costs_what_it_has_room_for, paired_code_has_few_slots,
    paired_code_is_short, paired_code_runs_the_same, paired_code_spends_its_tokens,
    paired_code_takes_few_words,
};
pub use program::run;
