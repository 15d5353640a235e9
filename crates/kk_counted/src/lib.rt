//! The counted form of a program: core code in which references to cells are counted. Its machine and what its code owes are
//! in specs/, with laws of its runs, without tokens and with them.
#![tactic(auto)]

mod copies;
mod counted;
mod form;
mod law;
mod shape;
mod tokened;

pub use copies::copied_decisions;
pub use counted::{Counted, CountedFun, counted_programs_are_judged};
pub use form::{Block, Last, Step};
pub use law::{
    counted_cells_are_live, drops_pay_for_themselves, judged_code_is_never_stuck,
    judged_code_keeps_its_heap_sound, judged_code_leaves_no_cell, judged_code_uses_counted_cells,
    known_fields_may_be_left, names_have_cells_of_a_pool, numbers_stay_in_32_bits,
    reuse_takes_no_cell, sound_heaps_are_functions, tokens_come_to_each_state,
    tokens_cost_what_they_have_room_for, tokens_follow_their_forms, tokens_keep_runs_the_same,
};
pub use shape::{InstanceShape, Parameter, Shape};
pub use tokened::{
    Tokened, TokenedBlock, TokenedFun, TokenedLast, TokenedStep, filling_step, opening_step,
};
