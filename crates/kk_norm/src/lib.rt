//! From a program to its core form: what the core form is, that it keeps the program's meaning, and the call that
//! writes it.
#![tactic(auto)]

mod cells;
mod expression;
mod law;
mod naming;
mod opening;
mod program;
mod truth;
mod writer;

pub use law::{
    core_forms_are_small, core_forms_are_whole, core_forms_ask_what_types_tell,
    core_forms_have_few_variables, core_forms_of_typed_programs_are_typed,
    core_forms_of_typed_programs_cost_little, core_forms_of_typed_programs_keep_meaning,
    core_forms_open_few_cells, core_forms_stand_for_their_nodes,
};
pub use program::normal;
