//! The insertion of dups and drops: from the core form to the counted form. It is a function on code in specs/, with laws.
#![tactic(auto)]

mod blocks;
mod function;
mod law;
mod lending;
mod passing;
mod program;
mod shaping;
mod variables;
mod writing;

pub use law::{
    counted_cells_are_the_live_places, inserted_code_can_be_lowered, inserted_code_ends_well,
    inserted_code_has_its_kinds, inserted_code_is_short, inserted_code_is_spent,
    inserted_code_keeps_meaning, inserted_code_opens_no_more, inserted_code_takes_few_words,
    typed_code_is_insertable, typed_code_is_marked,
};
pub use program::run;
