//! From an accepted program to its counted form with tokens. What the passes need of each other stands here, as laws.
#![tactic(auto)]

mod law;
mod lowering;
mod meaning;
mod positions;
mod program;
mod tokens;

pub use law::{
    core_constructors_are_consistent, owned_positions_of_instances_are_closed,
    tail_calls_of_core_forms_lend_on,
};
pub use lowering::{
    compiled_programs_are_short, compiled_programs_can_be_lowered, compiled_programs_open_by_count,
    compiled_programs_open_few_cells,
};
pub use meaning::{
    compiled_programs_are_marked, compiled_programs_have_their_kinds,
    compiled_programs_keep_meaning,
};
pub use positions::positions_of_instances;
pub use program::compile;
pub use tokens::{compiled_programs_take_few_words, compiled_tokens_can_be_lowered};
